// The assembler as a host calls it.
ghost use Rattle.std.specs.Prelude.{◌≡◌, length};
ghost use Rattle.language.specs.Answer.{answer_of, left_of};
ghost use Rattle.asm_numbers.specs.Numbers.{assembled_number};

use asm_numbers::number_assembled;
use assembler::assemble;

// Upper half 0: the cards' table stands at the front of the lent words, the lower half is its length, and all words behind it stay. Upper
// half 1 to 7: the fault of a line, the lower half. 8: something is missing. 9: a limit is passed. 10: the room is short; the lower half is 0.
pub fn torzimlak_assemble(cards: &[u8], table: &mut [u32]) -> u64
    ensures { (result ≡ assembled_number (answer_of cards.now (length table.old))) × (table.new ≡ left_of cards.now table.old) }
{
    let a = assemble(cards, table);
    number_assembled(a)
}
