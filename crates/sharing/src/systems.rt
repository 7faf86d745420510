// The theorems that tie opening and hiding to square systems of linear equations, over every field.
ghost use Rattle.sharing.specs.Systems.{OpensExactly, HidesExactly};

use field::Field;

// A group of t cards opens exactly if each row of its cards sends no word but zero to zeros.
pub fn opens_exactly_if<F: Field>()
    ensures { OpensExactly F.Field.ops }
{}

// A group of t − 1 cards hides exactly if its lane equations send no dummy numbers but zero to zeros; then each right side
// of them has exactly one solution.
pub fn hides_exactly_if<F: Field>()
    ensures { HidesExactly F.Field.ops }
{}
