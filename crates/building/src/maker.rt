// What enters containers in a book.
ghost use Rattle.std.specs.Prelude.{List};
ghost use Rattle.grammar.specs.Shape.{Text};
ghost use Rattle.book.specs.Plain.{Limits, array as array_of, maybe as maybe_of, dict as dict_of, structure as structure_of};
ghost use Rattle.building.specs.Building.{Goes, Says};

use grammar::error::Refusal;

// A maker answers the number of a container of known numbers, and adds it to its book where it is new.
pub trait Maker {
    // The texts of its containers.
    ghost book: { Self → List Text };

    // How many rows of each kind it can use.
    ghost limits: { Self → Limits };

    // What its calls keep, of an earlier maker and the one that came of it.
    ghost grew: { Self → Self → Type 0 };

    fn make_array(&mut self, n: u16) -> Result<u16, Refusal>
        ensures grew { Goes grew limits self.old self.new }
        ensures says { Says (limits self.old) (book self.old) (array_of n) result (book self.new) };

    fn make_maybe(&mut self, n: u16) -> Result<u16, Refusal>
        ensures grew { Goes grew limits self.old self.new }
        ensures says { Says (limits self.old) (book self.old) (maybe_of n) result (book self.new) };

    fn make_dict(&mut self, k: u16, v: u16) -> Result<u16, Refusal>
        ensures grew { Goes grew limits self.old self.new }
        ensures says { Says (limits self.old) (book self.old) (dict_of k v) result (book self.new) };

    fn make_structure(&mut self, fs: &[u16]) -> Result<u16, Refusal>
        ensures grew { Goes grew limits self.old self.new }
        ensures says { Says (limits self.old) (book self.old) (structure_of fs.now) result (book self.new) };
}
