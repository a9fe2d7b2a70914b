// Lists of rows without repetition, on rows that the caller lends.
#![tactic(auto)]

ghost use Rattle.std.specs.Prelude.{◌≡◌, ℕ, ◌+◌, ◌<◌, ◌≤◌, min, true, List, length, MatchOption, slice_index_or};
ghost use Rattle.rows.specs.Found.{used, Absent, Located, Place, Refused};

// A kind of row that can tell whether two rows are the same: yes exactly if their keys agree.
pub trait Row: Copy {
    ghost key: { Self → List ℕ };

    fn same(&self, other: &Self) -> bool
        ensures agree { result ≡ true → key self.now ≡ key other.now }
        ensures tells { key self.now ≡ key other.now → result ≡ true };
}

// The first `count` of the lent rows are in use, and at most `cap` ever are.
#[derive(Drop)]
pub struct RowList<'a, R> {
    rows: &'a mut [R],
    count: usize,
    cap: usize,
}

// A place among the first `n` rows with a row that is the same. It takes the rows as they are lent: `iter` on the field of a
// `&mut self` would leave open what the field holds after.
fn place_in<R: Row>(rows: &mut [R], n: usize, row: &R) -> Option<usize>
    ensures same { rows.new ≡ rows.old }
    ensures found { MatchOption result (Absent R.Row.key rows.old (min n (length rows.old)) (R.Row.key row.now)) (λ i. (i < min n (length rows.old)) × ((d : R) → R.Row.key (slice_index_or rows.old i d) ≡ R.Row.key row.now)) }
{
    let used = n.min(rows.len());
    rows[..used].iter().position(|r| r.same(row))
}

impl<'a, R: Row> RowList<'a, R> {
    // A list with no row in use: every lent row is blank, and at most `most` are ever used.
    pub fn open(rows: &'a mut [R], blank: R, most: usize) -> RowList<'a, R>
        ensures count { result.count ≡ 0 }
        ensures cap { result.cap ≡ min (length rows.old) most }
        ensures long { length result.rows.now ≡ length rows.old }
        ensures blank { (k : ℕ) (d : R) → k < length result.rows.now → slice_index_or result.rows.now k d ≡ blank }
    {
        rows.fill_with(|| blank);
        let cap = rows.len().min(most);
        RowList {
            rows,
            count: 0,
            cap,
        }
    }

    // How many rows are in use.
    pub fn len(&mut self) -> usize
        ensures same { self.new ≡ self.old }
        ensures count { result ≡ used self.old }
    {
        self.count.min(self.rows.len())
    }

    // The row in use at place `i`.
    pub fn row(&mut self, i: usize) -> Option<R>
        ensures same { self.new ≡ self.old }
        ensures row { MatchOption result (used self.old ≤ i) (λ x. Located self.old i x) }
    {
        if i < self.len() {
            Some(self.rows[i])
        } else {
            None
        }
    }

    // A place in use with a row that is the same.
    pub fn find(&mut self, row: &R) -> Option<usize>
        ensures same { self.new ≡ self.old }
        ensures found { MatchOption result (Absent R.Row.key self.old.rows.now (used self.old) (R.Row.key row.now)) (λ i. (i < used self.old) × ((d : R) → R.Row.key (slice_index_or self.old.rows.now i d) ≡ R.Row.key row.now)) }
    {
        place_in(self.rows, self.count, row)
    }

    // A place in use with a row that is the same; where there is none, the row is added after the last, if one is unused.
    pub fn find_or_add(&mut self, row: R) -> Option<usize>
        ensures cap { self.new.cap ≡ self.old.cap }
        ensures place { MatchOption result (Refused R.Row.key self.old.rows.now self.old.count self.old.cap row self.new.rows.now self.new.count) (λ i. Place R.Row.key self.old.rows.now self.old.count self.old.cap row self.new.rows.now self.new.count i) }
    {
        if let Some(i) = self.find(&row) {
            return Some(i);
        }
        let at = self.len();
        if at >= self.cap || at >= self.rows.len() {
            return None;
        }
        self.rows[at] = row;
        self.count = at + 1;
        Some(at)
    }

    // Puts the rows from place `to` on out of use, and blanks them.
    pub fn truncate(&mut self, to: usize, blank: R)
        ensures count { self.new.count ≡ min to self.old.count }
        ensures cap { self.new.cap ≡ self.old.cap }
        ensures long { length self.new.rows.now ≡ length self.old.rows.now }
        ensures below { (k : ℕ) (d : R) → k < to → slice_index_or self.new.rows.now k d ≡ slice_index_or self.old.rows.now k d }
        ensures above { (k : ℕ) (d : R) → self.old.count ≤ k → slice_index_or self.new.rows.now k d ≡ slice_index_or self.old.rows.now k d }
        ensures between { (k : ℕ) (d : R) → to ≤ k → k < self.old.count → k < length self.old.rows.now → slice_index_or self.new.rows.now k d ≡ blank }
    {
        let n = self.len();
        if to < n {
            self.rows[to..n].fill_with(|| blank);
        }
        self.count = self.count.min(to);
    }
}
