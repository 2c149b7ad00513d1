ghost use Rattle.std.specs.Prelude.{◌≡◌, cond};

// The first word where it is so, and else the second.
pub(crate) fn word(so: bool, first: &'static str, second: &'static str) -> &'static str
    ensures { result.now ≡ cond so first.now second.now }
{
    if so { first } else { second }
}
