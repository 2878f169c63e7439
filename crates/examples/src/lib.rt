//! The worked examples together: a table of orders, buffers and runs, the questions, and one proof that the definitions give what is
//! told.
#![tactic(auto)]

ghost use Rattle.std.specs.Prelude.{◌≡◌, length};
ghost use Rattle.examples.specs.Examples.{QuestionsAsTold};
ghost use Rattle.examples.specs.Names.{NamesAsTold};
ghost use Rattle.examples.specs.Table.{examples, ExamplesAsTold};

/// How many there are in the table. That each comes out as told is the contract, and so does each question that is asked of a book,
/// and what an entry with a name of 20 bytes, and with one of 21, is answered.
pub fn worked_examples() -> usize
    ensures told { ExamplesAsTold }
    ensures questions { QuestionsAsTold }
    ensures names { NamesAsTold }
    ensures count { result ≡ length examples }
{
    39
}
