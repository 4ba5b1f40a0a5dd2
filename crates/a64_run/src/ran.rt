//! How a run ended.

ghost use Rattle.std.specs.Prelude.{◌≡◌, None, Some};
ghost use Rattle.a64_run.specs.Run.{kept_for, kept_in, nothing_kept, status_of, with_input, with_product};

use crate::input::Input;
use crate::product::Product;
use a64_audit::{AuditFile, Verdict};
use a64_emit::{Code, EmitError};
use a64_formtext::ShownFile;
use a64_link::{LinkError, Linked};
use a64_link_file::LinkFile;
use a64_stubs::{StubFile, Stubs};
use a64_text::File;

/// Why a run did not end with status 0.
#[derive(Clone, Copy, Debug, PartialEq, Eq)]
pub enum Fault {
    /// The words are no command: status 2.
    Usage,
    /// A read failed, and none came after it: status 3.
    Read,
    /// The source holds more than 16,777,216 bytes, and no read failed: status 1.
    TooLong,
    /// The line of this number, counted from 1, is the first that is no entry: status 1.
    Line(u64),
    /// The items are refused, for this fault of theirs: status 1. It is never want of memory.
    Assembly(EmitError),
    /// The words are refused, for what an audit finds first: status 1. It is never that they are clean.
    Audit(Verdict),
    /// The units are refused, for this fault of theirs: status 1. It is never want of memory.
    Link(LinkError),
    /// A write to the sink failed, and none came after it: status 4.
    Write,
    /// Want of memory: status 5.
    Memory,
}

impl Fault {
    /// The status with which the program ends.
    pub fn status(self) -> u8
        ensures { result ≡ status_of (Some self) }
    {
        match self {
            Fault::TooLong | Fault::Line(_) => 1,
            Fault::Assembly(_) | Fault::Audit(_) | Fault::Link(_) => 1,
            Fault::Usage => 2,
            Fault::Read => 3,
            Fault::Write => 4,
            Fault::Memory => 5,
        }
    }
}

/// How a command ended, and what is kept of it.
#[derive(Drop)]
pub struct Ended {
    /// What the command worked on.
    pub input: Option<Input>,
    /// What was made that is kept.
    pub product: Option<Product>,
    /// Why not all was written.
    pub fault: Option<Fault>,
}

impl Ended {
    /// The end of a command by this fault, where nothing is kept of what it made.
    pub fn refused(input: Option<Input>, fault: Fault) -> Ended
        ensures input { result.input ≡ input }
        ensures product { result.product ≡ None }
        ensures fault { result.fault ≡ Some fault }
    {
        Ended {
            input,
            product: None,
            fault: Some(fault),
        }
    }

    /// The status with which the program ends.
    fn status(&self) -> u8
        ensures { result ≡ status_of self.now.fault }
    {
        match self.fault {
            None => 0,
            Some(fault) => fault.status(),
        }
    }
}

/// How a run ended, and what is kept of it. Of the five files one at most is kept, the one that the
/// command works on: where all was written, where a write failed, where it is refused for what stands in
/// it, and perhaps at want of memory.
#[derive(Drop)]
pub struct Ran {
    /// The status: 0 done, 1 refused input, 2 other words, 3 a failed read, 4 a failed write, 5 want
    /// of memory.
    pub status: u8,
    /// The file of items that was read, or, for `gen`, made.
    pub file: Option<File>,
    /// The code that was assembled: where all was written, and where a write failed; `asm` and `gen` alone
    /// make any.
    pub code: Option<Code>,
    /// Why the status is not 0.
    pub fault: Option<Fault>,
    /// The words that were read to be audited or shown.
    pub audit: Option<AuditFile>,
    /// The units that were read.
    pub link_file: Option<LinkFile>,
    /// The linked code.
    pub linked: Option<Linked>,
    /// The words of the listing that was read.
    pub shown: Option<ShownFile>,
    /// The addresses that were read.
    pub stub_file: Option<StubFile>,
    /// The stubs.
    pub stubs: Option<Stubs>,
}

/// What is kept, where nothing is.
fn nothing_kept(status: u8, fault: Option<Fault>) -> Ran
    ensures status { result.status ≡ status }
    ensures kept { kept_in result ≡ nothing_kept }
    ensures fault { result.fault ≡ fault }
{
    Ran {
        status,
        file: None,
        code: None,
        fault,
        audit: None,
        link_file: None,
        linked: None,
        shown: None,
        stub_file: None,
        stubs: None,
    }
}

impl Ran {
    /// What is kept, and this product.
    fn with_product(self, product: Option<Product>) -> Ran
        ensures status { result.status ≡ self.status }
        ensures kept { kept_in result ≡ with_product product (kept_in self) }
        ensures fault { result.fault ≡ self.fault }
    {
        let mut ran = self;
        match product {
            None => {}
            Some(Product::Code(code)) => ran.code = Some(code),
            Some(Product::Linked(linked)) => ran.linked = Some(linked),
            Some(Product::Stubs(stubs)) => ran.stubs = Some(stubs),
        }
        ran
    }

    /// What is kept, and what the command worked on.
    fn with_input(self, input: Option<Input>) -> Ran
        ensures status { result.status ≡ self.status }
        ensures kept { kept_in result ≡ with_input input (kept_in self) }
        ensures fault { result.fault ≡ self.fault }
    {
        let mut ran = self;
        match input {
            None => {}
            Some(Input::Items(file)) => ran.file = Some(file),
            Some(Input::Words(file)) => ran.audit = Some(file),
            Some(Input::Listing(file)) => ran.shown = Some(file),
            Some(Input::Units(file)) => ran.link_file = Some(file),
            Some(Input::Addresses(file)) => ran.stub_file = Some(file),
        }
        ran
    }
}

impl From<Ended> for Ran {
    ghost from_gives = { λ ended ran.
        (ran.status ≡ status_of ended.fault)
        × (kept_in ran ≡ kept_for ended.input ended.product) × (ran.fault ≡ ended.fault) };

    fn from(ended: Ended) -> Ran {
        let status = ended.status();
        let Ended {
            input,
            product,
            fault,
        } = ended;
        nothing_kept(status, fault)
            .with_product(product)
            .with_input(input)
    }
}
