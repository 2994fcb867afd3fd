// Names of eight bytes, and the places that hold them.
ghost use Rattle.std.specs.Prelude.{◌≡◌, ◌<◌, not, length};
ghost use Rattle.laws.specs.Sum.{every};
ghost use Rattle.planning.specs.Names as named;
ghost use Rattle.planning.specs.State.{name_at};

use crate::{Kept, Name};

// The first of some places that has a name, if one has it.
pub(crate) fn place_of(kept: &[Kept], name: Name) -> Option<usize>
    ensures { result ≡ named.place_of (name_at kept.now) (length kept.now) name }
{
    kept.iter().position(|held| held.name == name)
}

// No place before one has its name.
fn is_new(kept: &[Kept], place: usize) -> bool
    requires { place < length kept.now }
    ensures { result ≡ every place (λ k. not (named.same_name (name_at kept.now k) (name_at kept.now place))) }
{
    place_of(&kept[..place], kept[place].name).is_none()
}

// No two of some places have the same name. By index: each place is compared with those before it.
pub(crate) fn distinct(kept: &[Kept]) -> bool
    ensures { result ≡ named.distinct (name_at kept.now) (length kept.now) }
{
    (0..kept.len()).all(|place| is_new(kept, place))
}
