ghost use Rattle.std.specs.Prelude.{◌≡◌, IsTrue};
ghost use Rattle.chew_spec_editor.specs.Invariant.{is_settings};
ghost use Rattle.chew_spec_editor.specs.Settings.{standard_settings};

use chew_layouts::Kind;
use std::marker::Model;

/// The number of pairs from which on no new one is added, where nothing else is said.
pub const STANDARD_CAP: u32 = 65_536;

/// The most candidates of a page, each with a selection key.
pub const PAGE_LIMIT: usize = 10;

/// What the user may set.
#[derive(Debug, Drop)]
pub struct Settings {
    /// The layout that reads the keys.
    pub layout: Kind,
    /// The most cells that the pre-edit buffer holds, 1 to 39.
    pub buffer: u8,
    /// How many candidates a page of the window has, 1 to 10.
    pub page: u8,
    /// The keys that pick a candidate of the page: ten different printable bytes of ASCII, none the space.
    pub selection: [u8; PAGE_LIMIT],
    /// Whether Esc empties the buffer.
    pub escape_clears: bool,
    /// Whether what is committed is learnt.
    pub learn: bool,
    /// The number of pairs from which on the user's dictionary takes no new one, 1 to 200,000.
    pub cap: u32,
}

impl Model for Settings {
    ghost use Rattle.std.specs.Prelude.{IsTrue};
    ghost use Rattle.chew_spec_editor.specs.Settings as spec;
    ghost use Rattle.chew_spec_editor.specs.Invariant.{is_settings};
    ghost use Rattle.chew_layouts.specs.Layouts.{kind_of};

    ghost Value = { spec.Settings };

    ghost view = { λ s. record {
      layout = kind_of s.layout;
      buffer = s.buffer;
      page = s.page;
      selection = s.selection;
      escape_clears = s.escape_clears;
      learn = s.learn;
      cap = s.cap;
    } };

    ghost invariant = { λ s. IsTrue (is_settings (record {
      layout = kind_of s.layout;
      buffer = s.buffer;
      page = s.page;
      selection = s.selection;
      escape_clears = s.escape_clears;
      learn = s.learn;
      cap = s.cap;
    })) };
}

impl Settings {
    /// The settings where nothing else is said. It takes no memory.
    pub fn standard() -> Settings
        ensures { result ≡ standard_settings }
    {
        Settings {
            layout: Kind::Standard,
            buffer: 10,
            page: 10,
            selection: *b"1234567890",
            escape_clears: false,
            learn: true,
            cap: STANDARD_CAP,
        }
    }

    /// The same settings once more. It takes no memory.
    pub fn copy(&self) -> Settings
        ensures value { result ≡ self.now }
        ensures valid { IsTrue (is_settings self.now) }
    {
        Settings {
            layout: self.layout,
            buffer: self.buffer,
            page: self.page,
            selection: self.selection,
            escape_clears: self.escape_clears,
            learn: self.learn,
            cap: self.cap,
        }
    }

    /// Whether what is committed is learnt. It takes no memory.
    pub fn is_learning(&self) -> bool
        ensures { result ≡ self.now.learn }
    {
        self.learn
    }

    /// The keys that pick a candidate of the page. It takes no memory.
    pub fn selection(&self) -> &[u8]
        ensures { result.now ≡ self.now.selection }
    {
        &self.selection
    }
}
