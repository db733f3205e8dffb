// The signs `*` and `+` behind a regular formula.

ghost use Rattle.std.specs.Prelude.{◌≡◌};
ghost use Rattle.calculus.specs.View.{regular_of};
ghost use Rattle.meaning.specs.Signs.{without_signs, has_star as has_star_of};

use calculus::tree::Reg;

/// What stands before the signs behind a regular formula.
pub fn without_signs_behind(regular: &Reg) -> &Reg
    ensures { regular_of result.now ≡ without_signs (regular_of regular.now) }
{
    match regular {
        Reg::Star(inner) | Reg::Plus(inner) => without_signs_behind(inner),
        _ => regular,
    }
}

/// Whether one of the signs behind a regular formula is `*`.
pub fn has_star(regular: &Reg) -> bool
    ensures { result ≡ has_star_of (regular_of regular.now) }
{
    match regular {
        Reg::Star(_) => true,
        Reg::Plus(inner) => has_star(inner),
        _ => false,
    }
}
