// What a place takes, and each expression judged by the place in which it stands, after its parts.
ghost use Rattle.std.specs.Prelude.{◌≡◌, ℕ, ◌<◌, Bool, length};
ghost use Rattle.std.proofs.Math.Option.{some};
ghost use Rattle.ol_spec.specs.Lists.{is_some};
ghost use Rattle.ol_spec.specs.Syntax.{BinOp};
ghost use Rattle.ol_spec.specs.Encode.{bin_op_code};
ghost use Rattle.ol_spec.specs.Eval.{equality};
ghost use Rattle.ol_spec.specs.Admission as Admission;
ghost use Rattle.ol_tables.specs.Numbers.{numbers};
ghost use Rattle.ol_shapes.specs.Codes.{option_of, place_in};
ghost use Rattle.ol_shapes.specs.Judges.{PartIs, AllLongIs, AlikeIs, IteratedIs, SuitsIs, PartsJudged, WholeJudged, ExprJudged};

use super::shapes::Shapes;
use ol_tables::bytes::byte;
use ol_tables::form::Form;
use ol_tables::heads::{head, skip};

// The operations that take arrays.
const EQ: usize = 4;

const NEQ: usize = 5;

// What a place takes: scalars, anything, arrays, or arrays of one length.
#[derive(Clone, Copy)]
pub(crate) enum Place {
    Scalars,
    Anything,
    Arrays,
    ArraysOf(usize),
}

// The faulted expression's place.
#[derive(Clone, Copy)]
pub(crate) struct Misplaced {
    pub(crate) at: usize,
}

// Whether a place takes an expression of this shape.
pub(crate) fn takes(place: Place, shape: Option<usize>) -> bool
    ensures { result ≡ Admission.takes (place_in place) (option_of shape) }
{
    match place {
        Place::Scalars => shape.is_none(),
        Place::Anything => true,
        Place::Arrays => shape.is_some(),
        Place::ArraysOf(m) => match shape {
            Some(n) => m == n,
            None => false,
        },
    }
}

// The place under a name of this shape.
pub(crate) fn under(shape: Option<usize>) -> Place
    ensures { place_in result ≡ Admission.under (option_of shape) }
{
    match shape {
        Some(n) => Place::ArraysOf(n),
        None => Place::Scalars,
    }
}

// Whether an operation takes arrays: Eq and Neq do.
fn compares(op: usize) -> bool
    ensures { (o : BinOp) → op ≡ bin_op_code o → result ≡ is_some (equality o) }
{
    op == EQ || op == NEQ
}

// The place beside an operand of this shape, in Eq or Neq.
fn beside(shape: Option<usize>) -> Place
    ensures { (f : Bool → Bool) → place_in result ≡ Admission.beside (some f) (option_of shape) }
{
    if shape.is_some() {
        Place::Anything
    } else {
        Place::Scalars
    }
}

impl Shapes<'_> {
    // The place of part i of the expression at `at`; the first part stands at `pos`, if i is 0.
    fn part_place(&self, at: usize, i: usize, pos: usize, level: usize) -> Place
        ensures { PartIs self.now.file.now (numbers self.now.rows.now) self.now.slots.now self.now.plans.now level at i pos (place_in result) }
    {
        match self.form(at) {
            Form::Binary => {
                if !compares(byte(self.file, at + 1)) {
                    return Place::Scalars;
                }
                let other = if i == 0 {
                    skip(self.file, 1, pos)
                } else {
                    at + 2
                };
                beside(self.shape_at(other, level))
            }
            Form::Pre => match self.form(pos) {
                Form::Var => Place::Anything,
                _ => Place::Scalars,
            },
            Form::Call => under(self.variable_shape(byte(self.file, at + 1), i)),
            Form::Index => {
                if i == 0 {
                    Place::Anything
                } else {
                    Place::Scalars
                }
            }
            Form::Iterator => {
                if i < byte(self.file, at + 1) {
                    Place::Scalars
                } else {
                    Place::Arrays
                }
            }
            _ => Place::Scalars,
        }
    }

    // Whether so many expressions from `at` on are arrays of this length.
    fn all_long(&self, at: usize, count: usize, n: usize, level: usize) -> bool
        ensures { AllLongIs self.now.file.now (numbers self.now.rows.now) self.now.slots.now self.now.plans.now level at count n result }
    {
        let mut next = at;
        for _ in 0..count {
            if !takes(Place::ArraysOf(n), self.shape_at(next, level)) {
                return false;
            }
            next = skip(self.file, 1, next);
        }
        true
    }

    // Whether so many expressions from `at` on, one or more, are arrays of one length.
    fn alike(&self, at: usize, count: usize, level: usize) -> bool
        ensures { AlikeIs self.now.file.now (numbers self.now.rows.now) self.now.slots.now self.now.plans.now level at count result }
    {
        count != 0
            && match self.shape_at(at, level) {
                Some(n) => self.all_long(at, count, n, level),
                None => false,
            }
    }

    // Whether the iterator at `at` suits its arrays and its node.
    fn iterates(&self, at: usize, level: usize) -> bool
        requires { at < length self.now.file.now }
        ensures { IteratedIs self.now.file.now (numbers self.now.rows.now) self.now.slots.now self.now.plans.now level at result }
    {
        let arrays = byte(self.file, at + 3);
        let (first, inputs) = if byte(self.file, at + 1) == 0 {
            (at + 4, arrays)
        } else {
            (skip(self.file, 1, at + 4), 2)
        };
        self.alike(first, arrays, level) && self.iterable(byte(self.file, at + 2), inputs)
    }

    // Whether the expression at `at`, whose parts are no fault, is none either in this place.
    fn suits(&self, place: Place, at: usize, level: usize) -> bool
        ensures { SuitsIs self.now.file.now (numbers self.now.rows.now) self.now.slots.now self.now.plans.now level at (place_in place) result }
    {
        takes(place, self.shape_at(at, level))
            && match self.form(at) {
                Form::Iterator => self.iterates(at, level),
                _ => true,
            }
    }

    // Where the expression at `at` ends, whose parts end there and are no fault, if it is none either in this place.
    fn whole(&self, place: Place, at: usize, end: usize, level: usize) -> Result<usize, Misplaced>
        ensures { WholeJudged self.now.file.now (numbers self.now.rows.now) self.now.slots.now self.now.plans.now level at (place_in place) end result }
    {
        if self.suits(place, at, level) {
            Ok(end)
        } else {
            Err(Misplaced { at })
        }
    }

    // Where the parts of the expression at `at` end, or the first faulted expression without a faulted part among them. They have at most `level` levels.
    pub(crate) fn parts(&self, at: usize, level: usize) -> Result<usize, Misplaced>
        ensures { PartsJudged self.now.file.now (numbers self.now.rows.now) self.now.slots.now self.now.plans.now level at result }
    {
        let h = head(self.file, at);
        let mut next = h.start;
        for i in 0..h.count {
            if level == 0 {
                return Ok(next);
            }
            let place = self.part_place(at, i, next, level);
            let end = self.parts(next, level - 1)?;
            next = self.whole(place, next, end, level)?;
        }
        Ok(next)
    }

    // Where the expression at `at` ends, or the first faulted expression without a faulted part: of its parts, then itself. It has at most `level` levels.
    pub(crate) fn misplaced(
        &self,
        place: Place,
        at: usize,
        level: usize,
    ) -> Result<usize, Misplaced>
        requires { 0 < level }
        ensures { ExprJudged self.now.file.now (numbers self.now.rows.now) self.now.slots.now self.now.plans.now level at (place_in place) result }
    {
        let end = self.parts(at, level - 1)?;
        self.whole(place, at, end, level)
    }
}
