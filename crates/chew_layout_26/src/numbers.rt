ghost use Rattle.std.specs.Prelude.{◌≡◌, ◌≤◌, length};
ghost use Rattle.chew_spec_layout.specs.Letters.{numbers_of};

use arrayvec::ArrayVec;

/// The numbers of all parts of a column that a letter stands for.
#[tactic(auto, using(crate::proofs::Rest::with_number, crate::proofs::Rest::without_number, crate::proofs::Rest::at_end))]
pub(crate) fn numbers_of(column: &[u8], letter: u8) -> ArrayVec<u8, 21>
    requires { length column.now ≤ 21 }
    ensures { result.items ≡ numbers_of column.now letter }
{
    let mut numbers = ArrayVec::new();
    'letters: for place in 0..column.len() {
        if column[place] != letter {
            continue;
        }
        numbers.push(place as u8 + 1);
    }
    numbers
}
