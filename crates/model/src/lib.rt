// The values of document 01 as types. The definitions over them are in specs/, the theorems about those in proofs/.
// There is no code here: the crate is what a reader has to believe, and what the code above it is proved against.
#![tactic(auto)]

// Document 01, "Values", name: 1 to 1,000,000, given out in order, never twice; 0 stands for no parent.
// A name is never an address, so each has a type of its own.
#[repr(C)]
#[derive(Clone, Copy)]
pub struct Name(pub u32);

// "Values", address: 0 to 4,294,967,295.
#[repr(C)]
#[derive(Clone, Copy)]
pub struct Addr(pub u32);

// "Values", span: a start and a length.
#[derive(Clone, Copy)]
pub struct Span {
    pub start: Addr,
    pub length: u32,
}

// "Values", a row of the lent table, in document 01's order of the fields, and card 6: "The record gains a kind: 0 reference, 1 raw,
// 2 cell"; card 9: borrows below a `fresh` create "carry that mark in their records", 1 where they do and 0 else; card 10: "the maker's
// domain and a 64-bit mask of holders", domain D being worth 2^D. In a table in order the right is 1 (`ro`) or 2 (`rw`), the kind at most 2,
// and the maker at most 63. In C the mask is two words, so that a row is eleven words of 32 bits and no byte of it is padding.
// Right, kind and mark stay words, since C lends any (`kz_cap`): `in_order` (specs/Table) is false of a row with one that is no right, kind or mark.
#[repr(C)]
#[derive(Clone, Copy)]
pub struct Cap {
    pub name: Name,
    pub parent: Name,
    pub start: Addr,
    pub length: u32,
    pub right: u32,
    pub depth: u32,
    pub kind: u32,
    pub fresh: u32,
    pub maker: u32,
    pub holders: u64,
}

// "Values", the tally: names issued, the allowed events of each of the five kinds, and refused events.
#[repr(C)]
#[derive(Clone, Copy)]
pub struct Tally {
    pub issued: u32,
    pub creates: u32,
    pub borrows: u32,
    pub reads: u32,
    pub writes: u32,
    pub drops: u32,
    pub refused: u32,
}

// What a create or borrow gives to what it makes besides a span: the right; by card 6 the kind, which is 0 in a create ("Creates make
// references"); and by card 9 whether it is `fresh`, 1, or not, 0, as in every borrow. Each may be any byte. Card 10: "a 64-bit mask of
// holders, given by the maker at creation or borrowing and including itself".
// They stay numbers, since `unfit_root` and `unfit_child` (specs/Refusals) say refusal 2 of those that are no right, kind or mark.
#[derive(Clone, Copy)]
pub struct Terms {
    pub right: u8,
    pub kind: u8,
    pub fresh: u8,
    pub holders: u64,
}

// "Values", an event: one of five kinds, each with its own values. The names, starts and lengths may be any 32-bit numbers. Card 1, "names
// written out": a create or borrow has first the name that it writes out for what it makes, any 32-bit number; or none.
#[derive(Clone, Copy)]
pub enum Event {
    Create(Option<Name>, Span, Terms),
    Borrow(Option<Name>, Name, Span, Terms),
    Read(Name, Span),
    Write(Name, Span),
    Drop(Name),
}

// What works on the table, and by which domain: an event, or, card 5, that the names which are lent beside it are dropped together. An enum holds
// no list, so the names stand beside; `work_of` of specs/Requests puts both together. The domain may be any 32-bit number.
#[derive(Clone, Copy)]
pub enum Work {
    Single(u32, Event),
    Group(u32),
}

// What is asked: such work; or, card 11, a mark or a back, by which domain and in which slot, each any 32-bit number.
#[derive(Clone, Copy)]
pub enum Asked {
    Work(Work),
    Mark(u32, u32),
    Back(u32, u32),
}

// "What each event does": the two kinds of access to memory.
#[derive(Clone, Copy)]
pub enum Access {
    Reading,
    Writing,
}

// Card 7, "conflict sheets that makers edit": "Results are `keep`, `lower`, `end`."
#[derive(Clone, Copy)]
pub enum Effect {
    Keep,
    Lower,
    End,
}

// Card 7: where an access comes from, "for a user outside the holder's subtree".
#[derive(Clone, Copy)]
pub enum Origin {
    Cell,
    Kin,
    Stranger,
}

// Card 7: the 18 results of a sheet, by the kind of the holder, then by the access, then by where the access comes from.
#[derive(Clone, Copy)]
pub struct Results {
    pub cell: Effect,
    pub kin: Effect,
    pub stranger: Effect,
}

#[derive(Clone, Copy)]
pub struct Conflicts {
    pub read: Results,
    pub write: Results,
}

#[derive(Clone, Copy)]
pub struct Sheet {
    pub reference: Conflicts,
    pub raw: Conflicts,
    pub cell: Conflicts,
}

// "Eleven ways to be turned down", and those of the cards: each is named for its condition. The answer to an event is a
// `Result<Name, Refusal>`: allowed, with the new name of a create or borrow and name 0 of the others; or refused.
#[derive(Clone, Copy)]
pub enum Refusal {
    // 1: table not in order, written bits of another length than 8,192 bytes, a sheet of limits that is refused, memory for other than eight
    // states, or, in a back, a stored table that is not in order, over a limit, or of another number of rows.
    Disordered,
    // 2: line or listing not in the one spelling; event whose right is neither 1 nor 2, whose kind, mark or domain is none, or whose mask of
    // holders lacks its maker; mark or back above 7.
    Misspelt,
    // 3: span not legal: it ends above 4,294,967,296, or that of a `fresh` create above 65,536.
    IllegalSpan,
    // 4: name 0 or above the issued number.
    Unissued,
    // 5: name issued, capability ended.
    Ended,
    // 6: span not inside the capability's.
    OutsideSpan,
    // 7: write through `ro`, or borrow of `rw` from `ro`.
    ReadOnly,
    // 8: borrow from depth 64.
    TooDeep,
    // 9: create or borrow with 1,000,000 issued.
    NamesSpent,
    // 10: create or borrow with no empty row.
    TableFull,
    // 11: text longer than the output buffer.
    BufferTooShort,
    // 12, between 9 and 10: the written name is not the issued number plus one.
    Misnamed,
    // 13, after 1: a lent list of names that is empty, longer than 64 or not strictly rising.
    Misgrouped,
    // 14, after 2: a sheet's text gives a combination twice.
    GivenTwice,
    // 15, after 14: a sheet's text leaves a combination out.
    NotGiven,
    // 16, after 7: a read through a marked capability with some address not yet written.
    NotWritten,
    // 17, after 5: the domain is no holder.
    NoHolder,
    // 18, in the place of 10: the domain's limit is reached.
    LimitReached,
    // 19, after 2: a back finds nothing stored.
    NothingStored,
}
