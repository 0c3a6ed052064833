ghost use Rattle.std.specs.Prelude.{◌≡◌, [], IsTrue, IfOk, OnOk, OnErr};
ghost use Rattle.std.specs.Arc.{arc_value};
ghost use Rattle.chew_spec_layers.specs.Mark.{is_layer, is_proper_mark, put_mark};
ghost use Rattle.chew_buffer.specs.Marks.{marked_of};

use chew_buffer::{Buffer, Mark};
use chew_syllable::{Key, NoMemory, Phrase};
use std::alloc::Global;
use std::marker::Model;
use std::sync::Arc;

/// The marks of a layer, which a snapshot may share. They take memory from the first mark on.
#[derive(Drop)]
pub(crate) struct Layer {
    alloc: Global,
    none: Buffer,
    marks: Option<Arc<Buffer>>,
}

impl Model for Layer {
    ghost use Rattle.std.specs.Prelude.{◌≡◌, List, []};
    ghost use Rattle.std.specs.Arc.{arc_value};
    ghost use Rattle.std.specs.Option.{option_map_or};
    ghost use Rattle.chew_spec_layers.specs.Mark.{Marked};

    ghost Value = { List Marked };

    ghost view = { λ layer. option_map_or (λ marks. arc_value marks) layer.marks [] };

    ghost invariant = { λ layer. layer.none ≡ [] };
}

impl Layer {
    /// No marks. It keeps the allocator, and takes no memory.
    pub(crate) fn new(alloc: Global) -> Layer
        ensures { result ≡ [] }
    {
        Layer {
            alloc,
            none: Buffer::new(alloc),
            marks: None,
        }
    }

    /// The marks.
    pub(crate) fn marks(&self) -> &Buffer
        ensures { result.now ≡ self.now }
    {
        match &self.marks {
            Some(marks) => marks,
            None => &self.none,
        }
    }

    /// Gives a pair its mark, in place of an older one. Where a snapshot shares the marks, the layer has its own from then on.
    pub(crate) fn set(&mut self, key: &Key, phrase: &Phrase, mark: Mark) -> Result<(), NoMemory>
        requires proper { IsTrue (is_proper_mark (marked_of key.now phrase.now mark)) }
        ensures ok { OnOk result (self.new ≡ put_mark (marked_of key.now phrase.now mark) self.old) }
        ensures err { OnErr result (self.new ≡ self.old) }
    {
        match &mut self.marks {
            Some(marks) => set(Arc::make_mut(marks)?, key, phrase, mark),
            None => {
                let mut marks = Buffer::new(self.alloc);
                set(&mut marks, key, phrase, mark)?;
                self.marks = Some(Arc::new(self.alloc, marks)?);
                Ok(())
            }
        }
    }

    /// The marks, shared.
    pub(crate) fn share(&mut self) -> Result<Arc<Buffer>, NoMemory>
        ensures ok { IfOk result (λ marks. arc_value marks ≡ self.old) }
        ensures same { self.new ≡ self.old }
    {
        match &self.marks {
            Some(marks) => Ok(Arc::try_clone(marks)?),
            None => {
                let marks = Arc::new(self.alloc, Buffer::new(self.alloc))?;
                let shared = Arc::try_clone(&marks)?;
                self.marks = Some(marks);
                Ok(shared)
            }
        }
    }
}

/// Gives a pair its mark, in place of an older one.
fn set(marks: &mut Buffer, key: &Key, phrase: &Phrase, mark: Mark) -> Result<(), NoMemory>
    requires proper { IsTrue (is_proper_mark (marked_of key.now phrase.now mark)) }
    ensures ok { OnOk result (marks.new ≡ put_mark (marked_of key.now phrase.now mark) marks.old) }
    ensures err { OnErr result (marks.new ≡ marks.old) }
{
    match mark {
        Mark::Live { freq, time } => marks.put(key, phrase, freq, time),
        Mark::Grave => marks.bury(key, phrase),
    }
}
