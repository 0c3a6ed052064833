ghost use Rattle.std.specs.Prelude.{◌≡◌, [], IsTrue, None};
ghost use Rattle.chew_spec_editor.specs.Editor.{empty_editor};
ghost use Rattle.chew_spec_editor.specs.Invariant.{is_settings};
ghost use Rattle.chew_layouts.specs.Layouts.{layout_of};
ghost use Rattle.chew_editor.specs.State.{editor_of};

use chew_candidates::Window;
use chew_layouts::Layout;
use chew_phrasing::Piece;
use chew_preedit::Preedit;
use chew_settings::Settings;

/// What is typed, under its settings. To copy it takes no memory.
#[derive(Drop)]
pub(crate) struct Typing {
    pub(crate) settings: Settings,
    pub(crate) layout: Layout,
    pub(crate) preedit: Preedit,
}

/// All that an editor keeps.
#[derive(Drop)]
pub(crate) struct State {
    pub(crate) typing: Typing,
    /// Those that are shown for all runs, by their places in the buffer.
    pub(crate) pieces: Vec<Piece>,
    /// The candidates, where they are open.
    pub(crate) window: Option<Window>,
}

impl Typing {
    /// Nothing typed yet.
    pub(crate) fn of(settings: &Settings) -> Typing
        ensures value { editor_of result [] None ≡ empty_editor settings.now }
        ensures valid { IsTrue (is_settings settings.now) }
    {
        let settings = settings.copy();
        let layout = Layout::of(settings.layout);
        let preedit = Preedit::of(settings.buffer);
        Typing {
            settings,
            layout,
            preedit,
        }
    }

    /// The same once more.
    pub(crate) fn copy(&self) -> Typing
        ensures { result ≡ self.now }
    {
        Typing {
            settings: self.settings.copy(),
            layout: self.layout.copy(),
            preedit: self.preedit.copy(),
        }
    }

    /// The same with another layout.
    pub(crate) fn with_layout(&self, layout: Layout) -> Typing
        ensures settings { result.settings ≡ self.now.settings }
        ensures layout { layout_of result.layout ≡ layout_of layout }
        ensures preedit { result.preedit ≡ self.now.preedit }
    {
        Typing {
            settings: self.settings.copy(),
            layout,
            preedit: self.preedit.copy(),
        }
    }
}
