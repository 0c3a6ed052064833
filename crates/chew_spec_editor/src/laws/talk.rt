//! Laws of the talk.

ghost use Rattle.std.specs.Prelude.{◌≡◌, ◌+◌, ◌++◌, ◌∷◌, ◌<◌, ◌≤◌, [], drop, length, List, take};
ghost use Rattle.chew_spec_syllable.specs.Row.{Row};
ghost use Rattle.chew_spec_layout.specs.Layout.{cleared, new_layout};
ghost use Rattle.chew_spec_dictionary.specs.Call.{Reply};
ghost use Rattle.chew_spec_text.specs.KeyStroke.{KeyStroke};
ghost use Rattle.chew_spec_text.specs.Line.{Line};
ghost use Rattle.chew_spec_editor.specs.Editor.{Editor, empty_editor, line_of};
ghost use Rattle.chew_spec_editor.specs.Settings.{Settings};
ghost use Rattle.chew_spec_editor.specs.Keys.{calls_asked, press};
ghost use Rattle.chew_spec_editor.specs.Talk.{followed, handled, talk_from};

/// The talk over keys and more keys, where the first were all handled, is the talk over the first, and then the talk
/// over the others from the editor and the replies that the first left.
pub fn talks_joined()
    ensures { (system : List Row) (editor : Editor) (keys more : List KeyStroke) (replies : List Reply)
        → handled (talk_from system editor keys replies) ≡ length keys
        → talk_from system editor (keys ++ more) replies
        ≡ followed (talk_from system editor keys replies)
        (talk_from system (talk_from system editor keys replies).editor more (talk_from system editor keys replies).replies) }
{}

/// A talk stops only where fewer replies are left than the next key has calls, and then no further key is handled.
pub fn talk_stops()
    ensures few { (system : List Row) (editor : Editor) (next : KeyStroke) (keys rest : List KeyStroke) (replies : List Reply)
        → drop (handled (talk_from system editor keys replies)) keys ≡ next ∷ rest
        → length (talk_from system editor keys replies).replies
        < length (calls_asked (press system (talk_from system editor keys replies).editor next)) }
    ensures stopped { (system : List Row) (editor : Editor) (keys more : List KeyStroke) (replies : List Reply)
        → handled (talk_from system editor keys replies) < length keys
        → talk_from system editor (keys ++ more) replies ≡ talk_from system editor keys replies }
{}

/// The talk over the keys that were handled is the whole talk.
pub fn handled_keys_decide()
    ensures { (system : List Row) (editor : Editor) (keys : List KeyStroke) (replies : List Reply)
        → talk_from system editor (take (handled (talk_from system editor keys replies)) keys) replies
        ≡ talk_from system editor keys replies }
{}

/// Replies beyond those that the keys take change nothing, and are left over.
pub fn further_replies()
    ensures { (system : List Row) (editor : Editor) (keys : List KeyStroke) (replies more : List Reply)
        → handled (talk_from system editor keys replies) ≡ length keys
        → talk_from system editor keys (replies ++ more)
        ≡ record (talk_from system editor keys replies) { replies = (talk_from system editor keys replies).replies ++ more } }
{}

/// There is one line a handled key, and one reply is taken for each call.
pub fn talk_counts()
    ensures lines { (system : List Row) (editor : Editor) (keys : List KeyStroke) (replies : List Reply)
        → handled (talk_from system editor keys replies) ≤ length keys }
    ensures calls { (system : List Row) (editor : Editor) (keys : List KeyStroke) (replies : List Reply)
        → length (talk_from system editor keys replies).calls + length (talk_from system editor keys replies).replies
        ≡ length replies }
{}

/// The replies that a talk leaves are those behind the ones that its calls took, and its last line shows the editor that
/// it leaves.
pub fn what_a_talk_leaves()
    ensures replies { (system : List Row) (editor : Editor) (keys : List KeyStroke) (replies : List Reply)
        → (talk_from system editor keys replies).replies ≡ drop (length (talk_from system editor keys replies).calls) replies }
    ensures shown { (system : List Row) (editor : Editor) (keys : List KeyStroke) (replies : List Reply) (before : List Line) (last : Line)
        → (talk_from system editor keys replies).lines ≡ before ++ last ∷ []
        → last ≡ line_of (talk_from system editor keys replies).editor last.commit last.note }
{}

/// The layout stays of the kind that is set, over a whole talk: without what it holds it is the new one of that kind.
pub fn layout_keeps_its_kind()
    ensures { (system : List Row) (settings : Settings) (keys : List KeyStroke) (replies : List Reply)
        → cleared (talk_from system (empty_editor settings) keys replies).editor.layout ≡ new_layout settings.layout }
{}
