ghost use Rattle.std.specs.Prelude.{◌≡◌, IsTrue, [], length};
ghost use Rattle.std.specs.List.{list_all};
ghost use Rattle.chew_spec_dictionary.specs.Call.{is_hit};
ghost use Rattle.chew_spec_phrasing.specs.CanSegment.{CanSegment};
ghost use Rattle.chew_spec_phrasing.specs.CombinedRows.{combined_hits};

use crate::figures::Figures;
use chew_layouts::{Kind, Layout};
use chew_measuring::Failure;
use chew_phrasing::{Piece, best_of_run};
use chew_plain::{Call, Hit, Hits, Lexicon, Plain, Reply, RowMap};
use chew_settings::STANDARD_CAP;
use chew_syllable::{GREATEST_FREQ, Key, NoMemory, Phrase, RUN_LIMIT, Run, Step, Syllable};
use std::alloc::Global;
use std::time::CpuClock;

/// A buffer of syllables, and what it is phrased by.
#[derive(Drop)]
pub(crate) struct Typing {
    alloc: Global,
    system: RowMap,
    plain: Plain,
    layout: Layout,
    cells: Vec<Syllable>,
    pieces: Vec<Piece>,
}

impl Typing {
    /// An empty buffer over a system and an empty user's dictionary.
    pub(crate) fn of(alloc: Global, system: RowMap) -> Result<Typing, NoMemory> {
        Ok(Typing {
            alloc,
            system,
            plain: Plain::of(Vec::new(alloc), 0, STANDARD_CAP)?,
            layout: Layout::of(Kind::Standard),
            cells: Vec::new(alloc),
            pieces: Vec::new(alloc),
        })
    }

    /// Takes a key of the standard layout, and adds what it cost: of one that ends a syllable the phrasing, and where it
    /// fills the buffer the learning of its pieces, which empties it.
    pub(crate) fn take<R: CpuClock>(
        &mut self,
        rt: &R,
        key: u8,
        figures: &mut Figures,
    ) -> Result<(), Failure> {
        figures.count_key();
        if let Step::Whole(syllable) = self.layout.feed(key) {
            if self.system.has_single(syllable) {
                self.cells.push(syllable)?;
                self.phrase(rt, figures)?;
            }
        }
        if self.cells.len() >= RUN_LIMIT {
            self.learn_all(rt, figures)?;
        }
        Ok(())
    }

    /// Phrases the buffer.
    fn phrase<R: CpuClock>(&mut self, rt: &R, figures: &mut Figures) -> Result<(), Failure> {
        let Some(run) = Run::of(&self.cells) else {
            return Ok(());
        };
        let before = rt.thread_cpu_time()?;
        let hits = self.look(&run)?;
        self.pieces = pieces_of(self.alloc, &self.system, &run, hits.list())?;
        let after = rt.thread_cpu_time()?;
        figures.add_syllable(self.cells.len(), after.saturating_sub(before));
        Ok(())
    }

    /// What the user's dictionary has for a run.
    fn look(&mut self, run: &Run) -> Result<Hits, NoMemory> {
        match self.plain.apply(&Call::Look(run.copy()))? {
            Reply::Rows(hits) => Ok(hits),
            _ => Ok(Hits::of(Vec::new(self.alloc))),
        }
    }

    /// Learns each piece, and empties the buffer.
    fn learn_all<R: CpuClock>(&mut self, rt: &R, figures: &mut Figures) -> Result<(), Failure> {
        let before = rt.thread_cpu_time()?;
        for piece in &self.pieces {
            learn(&mut self.plain, &self.system, &self.cells, piece)?;
        }
        let after = rt.thread_cpu_time()?;
        figures.add_commit(after.saturating_sub(before));
        self.cells.clear();
        self.pieces.clear();
        Ok(())
    }
}

/// The best pieces of a run, or none where one of its syllables has no row.
fn pieces_of(
    alloc: Global,
    system: &RowMap,
    run: &Run,
    user: &[Hit],
) -> Result<Vec<Piece>, NoMemory>
    requires { IsTrue (list_all is_hit user.now) }
{
    if run.list().is_empty() {
        return Ok(Vec::new(alloc));
    }
    if !can_phrase(system, run, user) {
        return Ok(Vec::new(alloc));
    }
    best_of_run(alloc, system, run, user, &[], &[])
}

/// Whether the system has a row by itself for each syllable of the run, so that there is a segmentation.
fn can_phrase<L: Lexicon>(system: &L, run: &Run, user: &[Hit]) -> bool
    requires { IsTrue (list_all is_hit user.now) }
    ensures { IsTrue result → CanSegment (combined_hits (L.rows system.now) run.now user.now) [] (length run.now) }
{
    let _places = system.places(&[]);
    for syllable in run.list() {
        if !system.has_single(*syllable) {
            return false;
        }
    }
    true
}

/// Learns a piece of the buffer.
fn learn(
    plain: &mut Plain,
    system: &RowMap,
    cells: &[Syllable],
    piece: &Piece,
) -> Result<(), NoMemory> {
    let start = usize::from(piece.start);
    let end = start + piece.phrase.characters();
    if end > cells.len() {
        return Ok(());
    }
    match Key::of(&cells[start..end]) {
        Some(key) => learn_pair(plain, system, key, piece.phrase.copy()),
        None => Ok(()),
    }
}

/// Learns a pair.
fn learn_pair(
    plain: &mut Plain,
    system: &RowMap,
    key: Key,
    phrase: Phrase,
) -> Result<(), NoMemory> {
    let (orig, peak) = system.orig_and_peak(key.list(), phrase.text());
    if key.len() != phrase.characters() || orig > peak || peak > GREATEST_FREQ {
        return Ok(());
    }
    let _reply = plain.apply(&Call::Learn {
        key,
        phrase,
        orig,
        peak,
    })?;
    Ok(())
}
