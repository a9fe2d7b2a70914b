// Signatures made from known numbers.
ghost use Rattle.std.specs.Prelude.{◌≡◌, ◌+◌, ◌<◌, [], length, MatchResult};
ghost use Rattle.grammar.specs.Refusals.{outcome};
ghost use Rattle.book.specs.Nodes.{fields_of, field_figures, figures_from};
ghost use Rattle.book.specs.Makers.{placed, array_call, maybe_call, dict_call, structure_placed, structure_call};
ghost use Rattle.layout.specs.Kept.{Fit, types_in, fields_in, node_of};
ghost use Rattle.layout.specs.Made.{with_tails};
ghost use Rattle.book.specs.Plain.{array as array_of, maybe as maybe_of, dict as dict_of, structure as structure_of};
ghost use Rattle.layout.specs.Figured.{Short, Long, FiguredPart, NotPart};
ghost use Rattle.layout.specs.Structured.{AllParts, Structured};
ghost use Rattle.sheet.specs.Seen.{nodes_on, tails_on, CalledOn, MadeOn};

use crate::lay::{all_known, file_structure, no_unit};
use crate::row::{Kind, TypeRow, number_at};
use crate::sheet::Sheet;
use grammar::error::Refusal;
use grammar::figures::Figures;
use layout::figures::{array_figures, dict_figures, maybe_figures, structure_figures, with_field};

// The figures of no fields.
const NO_FIELDS: Figures = Figures {
    dbus: 8,
    fixed: true,
    ..Figures::NONE
};

impl<'a> Sheet<'a> {
    // The number of a container that is no structure; a new one is added.
    fn enter(&mut self, row: TypeRow) -> Result<u16, Refusal>
        requires fit { Fit (types_in self.old.types) (fields_in self.old.fields) row }
        requires plain { fields_of (node_of (fields_in self.old.fields) row) ≡ [] }
        ensures { MadeOn self.old self.new (outcome result) (with_tails (tails_on self.old) (placed self.old.types.cap (nodes_on self.old) (node_of (fields_in self.old.fields) row))) }
    {
        match self.types.find_or_add(row) {
            Some(i) => Ok(number_at(i)),
            None => Err(Refusal::NoRows),
        }
    }

    // The figures of the number `n`, which is to be a part.
    fn part(&mut self, n: u16) -> Result<Figures, Refusal>
        ensures same { self.new ≡ self.old }
        ensures part { MatchResult result (λ f. FiguredPart (nodes_on self.old) n f) (λ e. NotPart (nodes_on self.old) n e) }
    {
        let figures = self.figures(n, 0)?;
        if n == 0 {
            return Err(Refusal::UnitPart(0));
        }
        Ok(figures)
    }

    // The array of the number `n`.
    pub fn array(&mut self, n: u16) -> Result<u16, Refusal>
        ensures called { CalledOn self.old self.new (outcome result) (array_of n) }
        ensures made { MadeOn self.old self.new (outcome result) (with_tails (tails_on self.old) (array_call self.old.types.cap (nodes_on self.old) n)) }
    {
        let part = self.part(n)?;
        let figures = array_figures(part)?;
        self.enter(TypeRow {
            kind: Kind::Array,
            first: n,
            figures,
            ..TypeRow::BLANK
        })
    }

    // The maybe of the number `n`.
    pub fn maybe(&mut self, n: u16) -> Result<u16, Refusal>
        ensures called { CalledOn self.old self.new (outcome result) (maybe_of n) }
        ensures made { MadeOn self.old self.new (outcome result) (with_tails (tails_on self.old) (maybe_call self.old.types.cap (nodes_on self.old) n)) }
    {
        let part = self.part(n)?;
        let figures = maybe_figures(part)?;
        self.enter(TypeRow {
            kind: Kind::Maybe,
            first: n,
            figures,
            ..TypeRow::BLANK
        })
    }

    // The dictionary of the numbers `k` and `v`.
    pub fn dict(&mut self, k: u16, v: u16) -> Result<u16, Refusal>
        ensures called { CalledOn self.old self.new (outcome result) (dict_of k v) }
        ensures made { MadeOn self.old self.new (outcome result) (with_tails (tails_on self.old) (dict_call self.old.types.cap (nodes_on self.old) k v)) }
    {
        let key = self.figures(k, 0)?;
        let value = self.figures(v, 1)?;
        if k == 0 {
            return Err(Refusal::UnitPart(0));
        }
        if v == 0 {
            return Err(Refusal::UnitPart(1));
        }
        let figures = dict_figures(key, value)?;
        self.enter(TypeRow {
            kind: Kind::Dict,
            first: k,
            second: v,
            figures,
        })
    }

    // The number of the next new container; those below it are known.
    fn next_number(&mut self) -> u16
        ensures same { self.new ≡ self.old }
        ensures number { result ≡ 15 + length (nodes_on self.old) }
    {
        number_at(self.counts().0)
    }

    // The figures of the fields `fs` in a row.
    fn field_figures(&mut self, fs: &[u16]) -> Result<Figures, Refusal>
        requires { AllParts (length (nodes_on self.old)) fs.now }
        ensures same { self.new ≡ self.old }
        ensures figures { MatchResult result (λ f. Short (field_figures (figures_from [] (nodes_on self.old)) fs.now) f) (λ e. Long (field_figures (figures_from [] (nodes_on self.old)) fs.now) e) }
    {
        let mut all = NO_FIELDS;
        for (i, f) in fs.iter().enumerate().rev() {
            let field = self.figures(*f, i)?;
            all = with_field(field, all)?;
        }
        Ok(all)
    }

    // The number of the structure of the fields `fs`, which has these figures; a new one is added.
    pub(crate) fn structure_of(&mut self, fs: &[u16], figures: Figures) -> Result<u16, Refusal>
        requires { Structured self.old.types self.old.fields fs.now figures }
        ensures { MadeOn self.old self.new (outcome result) (structure_placed self.old.types.cap self.old.fields.cap (nodes_on self.old) (tails_on self.old) fs.now) }
    {
        file_structure(&mut self.types, &mut self.fields, fs, figures)
    }

    // The structure of the numbers `fs`.
    pub fn structure(&mut self, fs: &[u16]) -> Result<u16, Refusal>
        ensures called { CalledOn self.old self.new (outcome result) (structure_of fs.now) }
        ensures made { MadeOn self.old self.new (outcome result) (structure_call self.old.types.cap self.old.fields.cap (nodes_on self.old) (tails_on self.old) fs.now) }
    {
        all_known(fs, self.next_number())?;
        no_unit(fs)?;
        if fs.is_empty() {
            return Err(Refusal::NoFields);
        }
        let fields = self.field_figures(fs)?;
        let figures = structure_figures(fields)?;
        self.structure_of(fs, figures)
    }
}
