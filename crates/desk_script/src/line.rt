//! A line as far as it came.

ghost use Rattle.std.specs.Prelude.{◌≡◌, ◌++◌, ◌&&◌, [], List, ℕ, OnOk, false};
ghost use Rattle.desk_script.specs.Gathered.{Shows, HasCome};
ghost use Rattle.desk_script.specs.Lines.{is_blank_line};
ghost use Rattle.desk_base.specs.Bytes.{is_blank};

use desk_base::limits;
use std::alloc::{AllocError, Global};

/// The bytes of a line as far as they came, without a CR at their end.
#[derive(Drop)]
pub struct Line {
    /// The bytes, but no more than a request may have.
    pub kept: Vec<u8>,
    /// Whether there were more.
    pub is_long: bool,
    /// Whether they are only spaces and tabs.
    pub is_blank: bool,
    /// Whether a CR came after them, which belongs to the line end if an LF comes next.
    pub ends_by_cr: bool,
}

fn is_blank(byte: u8) -> bool
    ensures { result ≡ is_blank byte }
{
    byte == b' ' || byte == b'\t'
}

fn are_blank(bytes: &[u8]) -> bool
    ensures { result ≡ is_blank_line bytes.now }
{
    bytes.iter().all(|byte| is_blank(*byte))
}

fn stays_blank(was_blank: bool, run: &[u8]) -> bool
    ensures { result ≡ (was_blank && is_blank_line run.now) }
{
    was_blank && are_blank(run)
}

impl Line {
    /// A line of which nothing has come yet.
    pub fn new(alloc: Global) -> Line
        ensures { Shows result [] }
    {
        Line {
            kept: Vec::new(alloc),
            is_long: false,
            is_blank: true,
            ends_by_cr: false,
        }
    }

    /// Begins the next line.
    pub fn clear(&mut self)
        ensures { Shows self.new [] }
    {
        self.kept.clear();
        self.is_long = false;
        self.is_blank = true;
        self.ends_by_cr = false;
    }

    /// Adds as many of the bytes as there is room for.
    fn put(&mut self, run: &[u8]) -> Result<(), AllocError>
        ensures came { (text : List ℕ) → HasCome self.old text
            → OnOk result (HasCome self.new (text ++ run.now)) }
        ensures cr { self.new.ends_by_cr ≡ self.old.ends_by_cr }
    {
        self.is_blank = stays_blank(self.is_blank, run);
        let room = limits::LINE_BYTES.saturating_sub(self.kept.len());
        if run.len() <= room {
            return self.kept.extend_from_slice(run);
        }
        self.is_long = true;
        self.kept.extend_from_slice(&run[..room])
    }

    /// Adds the CR that came, if one did, to the line, since no LF came after it.
    pub fn keep_cr(&mut self) -> Result<(), AllocError>
        ensures came { (came : List ℕ) → Shows self.old came → OnOk result (HasCome self.new came) }
        ensures none { self.new.ends_by_cr ≡ false }
    {
        if self.ends_by_cr {
            self.ends_by_cr = false;
            self.put(b"\r")?;
        }
        Ok(())
    }

    /// Adds bytes that contain no LF.
    pub fn extend(&mut self, run: &[u8]) -> Result<(), AllocError>
        ensures { (came : List ℕ) → Shows self.old came
            → OnOk result (Shows self.new (came ++ run.now)) }
    {
        let Some((last, before)) = run.split_last() else {
            return Ok(());
        };
        self.keep_cr()?;
        if *last == b'\r' {
            self.put(before)?;
            self.ends_by_cr = true;
            return Ok(());
        }
        self.put(run)
    }
}
