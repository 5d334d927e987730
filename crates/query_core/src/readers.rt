// Which records read a record, so that a change finds them.
//
// A record is named among the readers of each node that it reads, with the number of the run by which it does. Its next run makes all
// earlier entries stale at once; they go when their list is full. So a run pays for what it reads, and for nothing else.

ghost use Rattle.std.specs.Prelude.{◌≡◌, ◌≢◌, ◌<◌, ◌≤◌, ◌++◌, ◌∷◌, ℕ, [], true, IfOk, IfSome, IfNone, OnOk, OnErr, length};
ghost use Rattle.query_core.specs.Lists.{Has};
ghost use Rattle.query_core.specs.Readers.{Names, KeepsNames, KeepsLive, row_at, run_of, is_live};
ghost use Rattle.query_core.specs.declared.readers.Reader.{Reader};

use std::alloc::{AllocError, Global};
use std::marker::Model;

/// How many readers a list of them has room for at first; most nodes have few.
const FIRST_ROOM: usize = 3;

/// A record that read a node by a run.
#[derive(Clone, Copy, Drop)]
pub(crate) struct Reader {
    pub(crate) node: u32,
    pub(crate) run: u32,
}

/// The last run of the record at a node, and who reads it.
#[derive(Drop)]
pub(crate) struct Row {
    run: u32,
    readers: Vec<Reader>,
}

impl Model for Row {
    ghost use Rattle.query_core.specs.Readers.{Entries};

    ghost Value = { Entries };

    ghost view = { λ r. record { run = r.run; readers = r.readers.items } };
}

impl Row {
    /// Nothing ran, and nothing reads it.
    fn new(alloc: Global) -> Row
        ensures { result ≡ record { run = 0; readers = [] } }
    {
        Row {
            run: 0,
            readers: Vec::new(alloc),
        }
    }

    /// Whether no reader fits any more without another allocation.
    fn is_full(&self) -> bool {
        self.readers.len() == self.readers.capacity()
    }

    fn readers(&self) -> &[Reader]
        ensures { result.now ≡ self.now.readers }
    {
        &self.readers
    }

    fn run(&self) -> u32
        ensures { result ≡ self.now.run }
    {
        self.run
    }

    fn push(&mut self, reader: Reader) -> Result<(), AllocError>
        ensures run { self.new.run ≡ self.old.run }
        ensures more { (e : Reader) → Has self.old.readers e → Has self.new.readers e }
        ensures added { OnOk result (Has self.new.readers reader) }
    {
        self.readers.reserve(1)?;
        self.readers.push_reserved(reader);
        Ok(())
    }

    fn set_readers(&mut self, readers: Vec<Reader>)
        ensures { self.new ≡ record self.old { readers = readers.items } }
    {
        self.readers = readers;
    }

    fn set_run(&mut self, run: u32)
        ensures { self.new ≡ record self.old { run = run } }
    {
        self.run = run;
    }
}

/// Makes room for the row of a node.
#[tactic(auto, using(crate::proofs::Linking::row_behind))]
fn cover_row(alloc: Global, rows: &mut Vec<Row>, node: u32) -> Result<(), AllocError>
    ensures same { (i : ℕ) → row_at rows.new.items i ≡ row_at rows.old.items i }
    ensures long { length rows.old.items ≤ length rows.new.items }
    ensures covered { OnOk result (node < length rows.new.items) }
{
    'places: while rows.len() <= node as usize {
        let row = Row::new(alloc);
        rows.push(row).map_err(AllocError::from)?;
    }
    Ok(())
}

/// The number of the run after this one; the highest number stays.
fn next_run(run: u32) -> u32
    ensures { run ≤ result }
{
    if run < u32::MAX { run + 1 } else { run }
}

/// The readers of each node.
#[derive(Drop)]
pub(crate) struct Readers {
    alloc: Global,
    rows: Vec<Row>,
}

impl Model for Readers {
    ghost use Rattle.std.specs.Prelude.{List};
    ghost use Rattle.query_core.specs.Readers.{Entries};

    ghost Value = { List Entries };

    ghost view = { λ r. r.rows.items };
}

impl Readers {
    /// Nothing reads anything.
    pub(crate) fn new(alloc: Global) -> Readers
        ensures { result ≡ [] }
    {
        Readers {
            alloc,
            rows: Vec::new(alloc),
        }
    }

    /// The run of the record at the node.
    fn run_of(&self, node: u32) -> u32
        ensures { result ≡ run_of self.now node }
    {
        match self.rows.get(node as usize) {
            Some(row) => row.run(),
            None => 0,
        }
    }

    /// Whether the entry isn't stale.
    pub(crate) fn is_live(&self, reader: Reader) -> bool
        ensures { result ≡ is_live self.now reader }
    {
        self.run_of(reader.node) <= reader.run
    }

    /// The readers of the node, stale ones too.
    pub(crate) fn readers_of(&self, node: u32) -> Option<&[Reader]>
        ensures some { IfSome result (λ readers. readers.now ≡ (row_at self.now node).readers) }
        ensures none { IfNone result ((row_at self.now node).readers ≡ []) }
    {
        let row = self.rows.get(node as usize)?;
        Some(row.readers())
    }

    /// The readers of the node that aren't stale, with room for as many again.
    fn live_of(&self, node: u32) -> Result<Vec<Reader>, AllocError>
        requires { node < length self.now }
        ensures { IfOk result (λ live. (e : Reader) → Has (row_at self.now node).readers e → is_live self.now e ≡ true → Has live.items e) }
    {
        let mut live = Vec::with_capacity(self.alloc, FIRST_ROOM)?;
        let mut rest = self.rows[node as usize].readers();
        'readers: while let Some((reader, behind)) = rest.split_first() {
            rest = behind;
            if !self.is_live(*reader) {
                continue;
            }
            live.push(*reader)?;
        }
        live.reserve(live.len())?;
        Ok(live)
    }

    /// Lets stale readers of the node go, where its list is full.
    fn make_room(&mut self, node: u32) -> Result<(), AllocError>
        requires { node < length self.old }
        ensures kept { KeepsLive self.old self.new }
        ensures long { length self.old ≤ length self.new }
    {
        if !self.rows[node as usize].is_full() {
            return Ok(());
        }
        let live = self.live_of(node)?;
        self.rows[node as usize].set_readers(live);
        Ok(())
    }

    /// Names a reader of the node.
    fn add(&mut self, node: u32, reader: Reader) -> Result<(), AllocError>
        ensures kept { KeepsLive self.old self.new }
        ensures long { length self.old ≤ length self.new }
        ensures added { OnOk result (Has (row_at self.new node).readers reader) }
    {
        cover_row(self.alloc, &mut self.rows, node)?;
        self.make_room(node)?;
        self.rows[node as usize].push(reader)
    }

    /// Names the record at the node as a reader of these, and of no others any more. After want of memory all is named that was.
    pub(crate) fn link(&mut self, node: u32, reads: &[u32]) -> Result<(), AllocError>
        ensures named { OnOk result ((j : ℕ) → Has reads.now j → Names self.new j node) }
        ensures others { OnOk result ((i j : ℕ) → i ≢ node → Names self.old j i → Names self.new j i) }
        ensures err { OnErr result (KeepsNames self.old self.new) }
    {
        cover_row(self.alloc, &mut self.rows, node)?;
        let reader = Reader {
            node,
            run: next_run(self.run_of(node)),
        };
        let mut rest = reads;
        'reads: while let Some((read, behind)) = rest.split_first() {
            self.add(*read, reader)?;
            rest = behind;
        }
        self.rows[node as usize].set_run(reader.run);
        Ok(())
    }
}
