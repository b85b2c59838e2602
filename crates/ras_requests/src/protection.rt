ghost use Rattle.std.specs.Prelude.{◌≡◌};
ghost use Rattle.ras_requests.specs.Protections.{protection_text, protection_of_text};

use crate::requests::Protection;

/// The text of a protection in files.
pub fn protection_text(protection: Protection) -> &'static str
    ensures { result.now ≡ protection_text protection }
{
    match protection {
        Protection::Total => "none",
        Protection::Board => "switchboard",
        Protection::Center => "datacenter",
    }
}

/// The protection that a text names, or None where it names none.
pub fn protection_of_text(text: &str) -> Option<Protection>
    ensures { result ≡ protection_of_text text.now }
{
    if text.as_bytes() == "none".as_bytes() {
        Some(Protection::Total)
    } else if text.as_bytes() == "switchboard".as_bytes() {
        Some(Protection::Board)
    } else if text.as_bytes() == "datacenter".as_bytes() {
        Some(Protection::Center)
    } else {
        None
    }
}
