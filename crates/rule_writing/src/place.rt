// Where a part of a rule stands, and what is written around it there.
ghost use Rattle.std.specs.Prelude.{◌≡◌};
ghost use Rattle.rule_writing.specs.Texts.{between as between_of, needs_brackets};

use rules::Join;

// Where a part stands: it is the whole rule, it is on a side of a chain or a choice, or it is repeated.
#[derive(Clone, Copy)]
pub(crate) enum Place {
    Whole,
    Left(Join),
    Right(Join),
    Repeated,
}

// Whether a chain or a choice needs brackets where it stands: without them another list would be read back.
pub(crate) fn needs_brackets(place: Place, child: Join) -> bool
    ensures { result ≡ needs_brackets place child }
{
    matches!(
        (place, child),
        (Place::Left(Join::Chain), Join::Choice)
            | (Place::Right(Join::Chain), _)
            | (Place::Right(Join::Choice), Join::Choice)
            | (Place::Repeated, _)
    )
}

// What stands between the two parts of a chain or a choice.
pub(crate) fn between(join: Join) -> &'static [u8]
    ensures { result.now ≡ between_of join }
{
    match join {
        Join::Chain => b" ",
        Join::Choice => b" | ",
    }
}
