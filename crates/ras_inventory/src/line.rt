use ras_table::Name;

/// A server of an inventory by its names.
#[derive(Debug, Drop)]
pub struct Line {
    pub name: Name,
    pub kind: Name,
    pub rack: Name,
    pub board: Name,
    pub center: Name,
}
