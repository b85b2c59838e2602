ghost use Rattle.sample_case.specs.Laws.{InventoryIsValid, SizeIsKept, BindingsAreValid, RequestsAreValid, SampleFits};

/// The inventory of each sample is the region of its servers.
pub fn inventory_is_valid()
    ensures { InventoryIsValid }
{}

/// The region of a sample has four servers on each switchboard, and as many switchboards as the sample's size.
pub fn size_is_kept()
    ensures { SizeIsKept }
{}

/// The bindings of each sample are bindings of the servers of its region.
pub fn bindings_are_valid()
    ensures { BindingsAreValid }
{}

/// The requests of each sample are its two reservations.
pub fn requests_are_valid()
    ensures { RequestsAreValid }
{}

/// The program of each sample's region, over classes, has neither too many columns nor too many rows.
pub fn sample_fits()
    ensures { SampleFits }
{}
