// The answers of the heap's calls and steps. What they mean, and the numbers that document 01 gives them, stands in specs/.
#![tactic(auto)]

ghost use Rattle.std.specs.Prelude.{◌≡◌};
ghost use Rattle.machine.specs.Audit.{sound?};
ghost use Rattle.machine.specs.Calls.{refusal_no, answer_numbers};
ghost use Rattle.machine.specs.declared.Refusal.TheVariants.{Unsound};

// A list of the heap: cache, fast or bin, and its number.
#[derive(Clone, Copy)]
pub enum ListKind {
    Cache(u32),
    Fast(u32),
    Bin(u32),
}

// The first fault that an audit finds, and its place; Shape where arena or record has no allowed length.
#[derive(Clone, Copy)]
pub enum Fault {
    Record,
    Tile(u32),
    List(ListKind),
    Flag(u32),
    Shape,
}

// Why a call is refused, in the order in which it is tested: document 01's numbers 1 to 5, and document 02's 12 of open.
#[derive(Clone, Copy)]
pub enum Refusal {
    Shape,
    Request,
    Unsound,
    NotLive,
    NoRoom,
    Edition,
}

// A call on an unsound heap is refused as such, whatever the fault.
impl From<Fault> for Refusal {
    ghost from_gives = { λ _ x. x ≡ Unsound };

    fn from(_fault: Fault) -> Refusal {
        Refusal::Unsound
    }
}

// What open, grant, release, resize, emptying and joining answer where they are not refused. A grant gives a mem offset and the usable bytes from there on.
#[derive(Clone, Copy)]
pub enum Answer {
    Done,
    Granted { mem: u32, usable: u32 },
}

// What became of one unsorted chunk in step 5, or that there was none.
#[derive(Clone, Copy)]
pub enum Turn {
    Granted(u32),
    Cached,
    Binned,
    Empty,
}

// The two answers as C sees them: the document's number and values.
#[repr(C)]
#[derive(Clone, Copy)]
pub struct HeapAnswer {
    pub no: u32,
    pub mem: u32,
    pub usable: u32,
}

#[repr(C)]
#[derive(Clone, Copy)]
pub struct HeapFault {
    pub no: u32,
    pub kind: u32,
    pub number: u32,
}

pub fn is_sound(x: Result<(), Fault>) -> bool
    ensures { result ≡ sound? x }
{
    x.is_ok()
}

fn refusal_no(x: Refusal) -> u32
    ensures { result ≡ refusal_no x }
{
    match x {
        Refusal::Shape => 1,
        Refusal::Request => 2,
        Refusal::Unsound => 3,
        Refusal::NotLive => 4,
        Refusal::NoRoom => 5,
        Refusal::Edition => 12,
    }
}

// The numbers of an answer, as document 01 gives them.
pub fn answer_numbers(x: Result<Answer, Refusal>) -> HeapAnswer
    ensures { result ≡ answer_numbers x }
{
    match x {
        Ok(Answer::Done) => HeapAnswer {
            no: 0,
            mem: 0,
            usable: 0,
        },
        Ok(Answer::Granted { mem, usable }) => HeapAnswer { no: 0, mem, usable },
        Err(refusal) => HeapAnswer {
            no: refusal_no(refusal),
            mem: 0,
            usable: 0,
        },
    }
}
