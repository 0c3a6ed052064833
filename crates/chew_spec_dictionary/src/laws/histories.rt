//! Laws of histories.

ghost use Rattle.std.specs.Prelude.{◌≡◌, ℕ, ◌+◌, ◌&&◌, ◌++◌, List, ◌∷◌, [], length, Some, None, unwrap_or, ◌≢◌, filter, not, true};
ghost use Rattle.chew_spec_dictionary.specs.Call.{Look, Learn, Forget, Hide, Freeze, Install, Rows, Frozen, Installed};
ghost use Rattle.chew_spec_dictionary.specs.Dictionary.{learn, forget, hide};
ghost use Rattle.chew_spec_dictionary.specs.Look.{hits_of};
ghost use Rattle.chew_spec_dictionary.specs.History.{Point, Entry, after, replies, own, calls_of, is_legal, answer, is_keepers};

/// What two histories, one after the other, come to: the second goes on from the point that the
/// first leaves.
pub fn histories_joined()
    ensures after { (p : Point) (h more : List Entry) → after p (h ++ more) ≡ after (after p h) more }
    ensures replies { (p : Point) (h more : List Entry) (who : ℕ) → replies p (h ++ more) who ≡ replies p h who ++ replies (after p h) more who }
    ensures own { (h more : List Entry) (who : ℕ) → own (h ++ more) who ≡ own h who ++ own more who }
    ensures calls { (h more : List Entry) (who : ℕ) → calls_of (h ++ more) who ≡ calls_of h who ++ calls_of more who }
    ensures legal { (p : Point) (h more : List Entry) → is_legal p (h ++ more) ≡ is_legal p h && is_legal (after p h) more }
{}

/// The reply to an entry is what its call is answered at the point that the entries before it
/// leave, whatever follows; and a place is the number of entries before it.
pub fn replies_by_what_came_before()
    ensures reply { (p : Point) (h : List Entry) (e : Entry) (more : List Entry)
        → replies p (h ++ (e ∷ more)) e.who
        ≡ replies p h e.who ++ ((answer (after p h) e.call).reply ∷ replies (after p (h ++ (e ∷ []))) more e.who) }
    ensures place { (p : Point) (h : List Entry) → (after p h).place ≡ p.place + length h }
{}

/// What each call leaves of the dictionary and answers: a look-up its hits, and a learn, a forget and a hide
/// what they are of the dictionary then.
pub fn answers_by_call()
    ensures look { (p : Point) (run : List ℕ) → (answer p (Look run)).reply ≡ Rows (hits_of p.dictionary.pairs run) }
    ensures learn { (p : Point) (key phrase : List ℕ) (orig peak : ℕ)
        → (answer p (Learn key phrase orig peak)).reply ≡ (learn p.dictionary key phrase orig peak).reply }
    ensures learnt { (p : Point) (key phrase : List ℕ) (orig peak : ℕ)
        → (answer p (Learn key phrase orig peak)).point.dictionary ≡ (learn p.dictionary key phrase orig peak).left }
    ensures forget { (p : Point) (key phrase : List ℕ) → (answer p (Forget key phrase)).reply ≡ (forget p.dictionary key phrase).reply }
    ensures forgotten { (p : Point) (key phrase : List ℕ) → (answer p (Forget key phrase)).point.dictionary ≡ (forget p.dictionary key phrase).left }
    ensures hide { (p : Point) (key phrase : List ℕ) → (answer p (Hide key phrase)).reply ≡ (hide p.dictionary key phrase).reply }
    ensures hidden { (p : Point) (key phrase : List ℕ) → (answer p (Hide key phrase)).point.dictionary ≡ (hide p.dictionary key phrase).left }
    ensures install { (p : Point) (number : ℕ) → (answer p (Install number)).reply ≡ Installed }
{}

/// A look-up, a freeze and an install change no pair, nor the life; a look-up, a learn, a forget and a
/// hide change nothing of the shape. A freeze leaves what is installed, and has the number wait that
/// waits already, or else its own place; and an install has nothing wait.
pub fn calls_that_change_no_pair()
    ensures look { (p : Point) (run : List ℕ) → (answer p (Look run)).point.dictionary ≡ p.dictionary }
    ensures freeze { (p : Point) → (answer p Freeze).point.dictionary ≡ p.dictionary }
    ensures install { (p : Point) (number : ℕ) → (answer p (Install number)).point.dictionary ≡ p.dictionary }
    ensures shape_of_look { (p : Point) (run : List ℕ) → (answer p (Look run)).point.shape ≡ p.shape }
    ensures shape_of_learn { (p : Point) (key phrase : List ℕ) (orig peak : ℕ) → (answer p (Learn key phrase orig peak)).point.shape ≡ p.shape }
    ensures shape_of_forget { (p : Point) (key phrase : List ℕ) → (answer p (Forget key phrase)).point.shape ≡ p.shape }
    ensures shape_of_hide { (p : Point) (key phrase : List ℕ) → (answer p (Hide key phrase)).point.shape ≡ p.shape }
    ensures freeze_installs { (p : Point) → (answer p Freeze).point.shape.installed ≡ p.shape.installed }
    ensures freeze_waits { (p : Point) → (answer p Freeze).point.shape.waiting ≡ Some (unwrap_or p.shape.waiting p.place) }
    ensures freeze_tells { (p : Point) → (answer p Freeze).reply ≡ Frozen (unwrap_or p.shape.waiting p.place) }
    ensures freeze_again { (p : Point) (number : ℕ) → p.shape.waiting ≡ Some number → (answer p Freeze).point.shape ≡ p.shape }
    ensures none_waits { (p : Point) (number : ℕ) → (answer p (Install number)).point.shape ≡ record { installed = number; waiting = None } }
{}

/// Freezes and installs change nothing for others: the dictionary after a history, and the replies
/// to every number but 0, are those of the history without them.
pub fn freezes_and_installs_change_nothing()
    ensures dictionary { (p : Point) (h : List Entry) → (after p h).dictionary ≡ (after p (filter (λ e. not (is_keepers e.call)) h)).dictionary }
    ensures replies { (p : Point) (h : List Entry) (who : ℕ) → is_legal p h ≡ true → who ≢ 0
        → replies p h who ≡ replies p (filter (λ e. not (is_keepers e.call)) h) who }
{}
