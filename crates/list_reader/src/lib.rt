// The reader of the bench's call list: the loaded bytes and a place in them. `read_record` takes and hands back plain values: who calls it needs no reader.
#![tactic(auto)]

ghost use Rattle.std.specs.Prelude.{◌≡◌};
ghost use Rattle.call_list.specs.Records.{record_at};
ghost use Rattle.call_list.specs.Decoded.{entry_of};
ghost use Rattle.list_reader.specs.Read.{moved_on, taken_at, taken_of};

use call_list::{Record, decode};
use texts::RECORD_LENGTH;

#[derive(Clone, Copy)]
pub struct Reader<'a> {
    list: &'a [u8],
    place: usize,
}

// What stood at a place, and the place after it.
#[derive(Clone, Copy)]
pub struct Taken {
    pub found: Option<Record>,
    pub next: usize,
}

impl<'a> Reader<'a> {
    // A reader of these bytes, at this place.
    pub fn at(list: &'a [u8], place: usize) -> Reader<'a>
        ensures { result ≡ record { list = list.entry; place = place } }
    {
        Reader { list, place }
    }

    // What stands at the reader's place.
    pub fn read(self) -> Option<Record>
        ensures { entry_of result ≡ record_at self.entry.list.now self.entry.place }
    {
        decode(self.list, self.place)
    }

    // The reader of the same bytes, one record further. It goes no further than the end.
    #[tactic(auto, unfolding(crate::specs::Read::after))]
    pub fn moved(self) -> Reader<'a>
        ensures { result ≡ moved_on self.entry }
    {
        let further = self.place.saturating_add(RECORD_LENGTH);
        Reader {
            list: self.list,
            place: further.min(self.list.len()),
        }
    }
}

// What stands at a place of the list, and the place after it.
pub fn read_record(list: &[u8], place: usize) -> Taken
    ensures { taken_of result ≡ taken_at list.now place }
{
    let reader = Reader::at(list, place);
    Taken {
        found: reader.read(),
        next: reader.moved().place,
    }
}
