// Questions about a list of links.
ghost use Rattle.std.specs.Prelude.{◌≡◌};
ghost use Rattle.descent.specs.Refusals.{stray_end};

use crate::link::Link;

/// The first end of a link, in the order of the list and `from` before `to`, that is not below the number of types.
pub fn stray_end(links: &[Link], types: u16) -> Option<u16>
    ensures { result ≡ stray_end types links.now }
{
    for link in links {
        if link.from >= types {
            return Some(link.from);
        }
        if link.to >= types {
            return Some(link.to);
        }
    }
    None
}
