// A list kept in an array: a count, and as many lines as the array has, by rising identifier. What each list of the table does is said here once, over
// every value, whatever its count and lines hold: each promise is an equation with a function on the list that the lines read as.
#![tactic(auto)]

ghost use Rattle.std.specs.Prelude.{[], ◌++◌, map, ◌≡◌, ◌<◌, ◌≤◌, ◌+◌, ◌&&◌, ℕ, Bool, List, length, set, ltb, leb, eqb, option_map, if◌then◌else◌};
ghost use Rattle.std.specs.List.{find};
ghost use Rattle.lists.specs.Lists.{keep};
ghost use Rattle.lists.specs.Keyed.{has, insert, remove, rising};
ghost use Rattle.lines.specs.Shape.{Shape, live, pad, blank};
ghost use Rattle.lines.specs.Search.{place};
ghost use Rattle.lines.specs.Halves.{Halved};

pub trait Lines: Copy {
    type Line: Copy;

    type Id: Copy;

    // What a line reads as, and the name by which the lines rise.
    ghost Meaning: { Type 0 };

    ghost shape: { Shape Self.Line Meaning };

    ghost name: { Meaning → ℕ };

    ghost number: { Self.Id → ℕ };

    // The count and the lines of a list, and the list of a count and lines.
    ghost count_of: { Self → ℕ };

    ghost lines_of: { Self → List Self.Line };

    ghost made: { ℕ → List Self.Line → Self };

    // What a list reads as, a list written so, and rule 8.
    ghost reading: { Self → List Meaning };

    ghost written: { List Meaning → Self };

    ghost clean: { Self → Bool };

    // The number of an identifier.
    fn number(id: Self::Id) -> u32
        ensures { result ≡ number id };

    // The number of a line's identifier.
    fn key(line: &Self::Line) -> u32
        ensures { result ≡ name (shape.view line.now) };

    fn is_zeros(line: &Self::Line) -> bool
        ensures { result ≡ shape.is_zeros line.now };

    // A list of no lines.
    fn new() -> Self
        ensures { result ≡ written [] };

    fn count(&self) -> u32
        ensures { result ≡ count_of self.now };

    // All lines of the array.
    fn lines(&self) -> &[Self::Line]
        ensures all { result.now ≡ lines_of self.now }
        ensures long { length result.now ≡ shape.limit };

    // One line more, behind those that the count reads; the same list where there is no room.
    fn push(&mut self, line: Self::Line)
        ensures room { count_of self.old < shape.limit → self.new ≡ made (count_of self.old + 1) (set (lines_of self.old) (count_of self.old) line) }
        ensures full { shape.limit ≤ count_of self.old → self.new ≡ self.old };

    // The laws that every list keeps: what it reads as is what its count reads of its lines, a list is written with zeros past it, rule 8 is asked of
    // both, and a list that is made of a count and lines has that count and those lines.
    ghost reads: { (s : Self) → reading s ≡ live shape (count_of s) (lines_of s) };

    ghost writes: { (xs : List Meaning) → written xs ≡ made (length xs) (pad shape xs) };

    ghost cleans: { (s : Self) → clean s ≡ (leb (count_of s) shape.limit && blank shape (count_of s) (lines_of s)) };

    ghost counts: { (n : ℕ) (ls : List Self.Line) → count_of (made n ls) ≡ n };

    ghost lines_made: { (n : ℕ) (ls : List Self.Line) → lines_of (made n ls) ≡ ls };

    // The lines that are read: as many as the count says, all where it says more.
    final fn listed(&self) -> &[Self::Line]
        ensures reads { map shape.view result.now ≡ reading self.now }
        ensures few { length result.now ≤ shape.limit }
    {
        let lines = self.lines();
        let n = lines.len().min(self.count() as usize);
        &lines[..n]
    }

    final fn len(&self) -> usize
        ensures { result ≡ length (reading self.now) }
    {
        self.listed().len()
    }

    // A place of that identifier, found by halves; the number of lines where that finds none. On a rising list it is the place of the first. It is no Option:
    // the pass of rule 4 takes it as an index, and its proof shows that it is one. It ends where it finds one; the library's search goes through all halves, and
    // took more than twice the time where stores are nested deep.
    final fn half_place(&self, id: Self::Id) -> usize
        ensures { Halved name (reading self.now) (number id) result }
    {
        let key = Self::number(id);
        let listed = self.listed();
        let mut low = 0;
        let mut high = listed.len();
        while low < high {
            let middle = low + (high - low) / 2;
            let found = Self::key(&listed[middle]);
            if found == key {
                return middle;
            }
            if found < key {
                low = middle + 1;
            } else {
                high = middle;
            }
        }
        listed.len()
    }

    // Some line has that identifier: where a search by halves finds nothing each line is asked.
    final fn has(&self, id: Self::Id) -> bool
        ensures { result ≡ has name (reading self.now) (number id) }
    {
        let key = Self::number(id);
        self.half_place(id) < self.len() || self.listed().iter().any(|line| Self::key(line) == key)
    }

    // The first line of that identifier, if there is one.
    final fn find(&self, id: Self::Id) -> Option<Self::Line>
        ensures { option_map shape.view result ≡ find (λ m. eqb (name m) (number id)) (reading self.now) }
    {
        let key = Self::number(id);
        self.listed()
            .iter()
            .find(|line| Self::key(line) == key)
            .copied()
    }

    // The identifiers rise strictly.
    final fn rises(&self) -> bool
        ensures { result ≡ rising name (reading self.now) }
    {
        let listed = self.listed();
        listed.is_sorted_by(|a, b| Self::key(a) < Self::key(b))
    }

    // The count is at most the number of lines, and lines past it hold zeros.
    final fn is_clean(&self) -> bool
        ensures { result ≡ clean self.now }
    {
        let n = self.count() as usize;
        let lines = self.lines();
        n <= lines.len() && lines[n..].iter().all(|line| Self::is_zeros(line))
    }

    // The lines that pass a test.
    final fn kept<F: Fn(Self::Line) -> bool>(&self, test: F) -> Self
        requires { F.IsAlwaysCallable test }
        ensures { (p : Meaning → Bool) → ((line : Self.Line) (b : Bool) → F.post test line b → b ≡ p (shape.view line)) → result ≡ written (keep p (reading self.now)) }
    {
        let listed = self.listed();
        let mut kept = Self::new();
        for line in listed {
            if test(*line) {
                kept.push(*line);
            }
        }
        kept
    }

    // The lines but those of that identifier.
    final fn without(&self, id: Self::Id) -> Self
        ensures { result ≡ written (remove name (number id) (reading self.now)) }
    {
        let key = Self::number(id);
        self.kept(|line| Self::key(&line) != key)
    }

    // Each line changed.
    final fn each<F: Fn(Self::Line) -> Self::Line>(&self, change: F) -> Self
        requires { F.IsAlwaysCallable change }
        ensures { (f : Meaning → Meaning) → ((line new : Self.Line) → F.post change line new → shape.view new ≡ f (shape.view line)) → result ≡ written (map f (reading self.now)) }
    {
        let listed = self.listed();
        let mut changed = Self::new();
        for old in listed {
            changed.push(change(*old));
        }
        changed
    }

    // More lines, behind those that the count reads, as far as there is room.
    final fn extend(&mut self, more: &[Self::Line])
        ensures { (ms : List Meaning) → length ms + length more.now ≤ shape.limit → self.old ≡ written ms → self.new ≡ written (ms ++ map shape.view more.now) }
    {
        for line in more {
            self.push(*line);
        }
    }

    // How many lines stand before the first of a higher identifier.
    final fn place_above(&self, key: u32) -> usize
        ensures { result ≡ place (λ m. ltb key (name m)) (reading self.now) }
    {
        let listed = self.listed();
        listed
            .iter()
            .position(|line| key < Self::key(line))
            .unwrap_or(listed.len())
    }

    // One line more, at its rising place; the same list where it is full.
    final fn with(&self, line: Self::Line) -> Self
        ensures { result ≡ (if ltb (length (reading self.now)) shape.limit then written (insert name (shape.view line) (reading self.now)) else self.now) }
    {
        let listed = self.listed();
        if listed.len() == self.lines().len() {
            return *self;
        }
        let (low, high) = listed.split_at(self.place_above(Self::key(&line)));
        let mut grown = Self::new();
        grown.extend(low);
        grown.push(line);
        grown.extend(high);
        grown
    }
}
