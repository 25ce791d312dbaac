//! Laws of logs and of the bytes of entries. Each function does nothing; its contract is the law.

ghost use Rattle.std.specs.Prelude.{◌≡◌, ◌<◌, ◌++◌, ℕ, true, List, length};
ghost use Rattle.vb_log.specs.declared.entry.Entry.{Entry};
ghost use Rattle.vb_log.specs.declared.entry.Entry.TheVariants as entries;
ghost use Rattle.vb_log.specs.declared.entry.Pending.{Pending};
ghost use Rattle.vb_log.specs.Content.{Content, with_entry, content_of};
ghost use Rattle.vb_log.specs.Logs.{whole_logs, folds, IsFaithful};
ghost use Rattle.vb_log.specs.Parts.{JoinsBack};
ghost use Rattle.vb_log.specs.Laws.{WaitsAsPrepared, PrepareShowsNothing, PrepareWaits};
ghost use Rattle.vb_log.specs.Laws.{CommitShows, CommitLeavesOthers, CommitOfDropped, EndsOne};
ghost use Rattle.vb_log.specs.Laws.{AbortShowsNothing, DroppedHasNothing, ManifestLeavesOthers};
ghost use Rattle.vb_log.specs.Laws.{MutationCounts, DeletionCounts, PrepareCounts};
ghost use Rattle.vb_log.specs.Layout.{Fits};
ghost use Rattle.vb_log.specs.Spelling.{IsAllowed, IsSpelled, spelling, entry_layout};
ghost use Rattle.vb_log.specs.Sizes.{entry_length, can_add};
ghost use Rattle.vb_log.specs.Prepares.{IsAllowedPending, pending_bytes};
ghost use Rattle.vb_log.specs.Contents.{HasBytes, IsContent, IsWhole, content_bytes, content_layout};
ghost use Rattle.vb_log.specs.Faults.{BreaksAt, PendingBreaksAt, ContentBreaksAt};
ghost use Rattle.vb_log.specs.declared.limits.TheConstants.{GREATEST_POSITION};

/// What of a log's content lies behind a position, joined to what the log comes to up to there, is
/// what the whole log comes to.
pub fn parts_join_back()
    ensures { JoinsBack }
{}

/// A log that is kept whole and one that is kept as what it comes to both follow their entries.
pub fn folds_follow_their_entries()
    ensures whole { IsFaithful whole_logs }
    ensures folds { IsFaithful folds }
{}

/// A content counts the entries of its log.
pub fn length_counts_entries()
    ensures { (log : List Entry) → (content_of log).length ≡ length log }
{}

/// A Prepare changes what no key has. What it says waits from then on, and what waits is what a
/// Prepare of the log says.
pub fn prepare_shows_nothing()
    ensures shows { PrepareShowsNothing }
    ensures waits { PrepareWaits }
    ensures prepared { WaitsAsPrepared }
{}

/// A Commit gives the key what its Prepare says, at the Commit's own position, and changes what no
/// other key has; where the collection was dropped meanwhile, it gives nothing. It ends the wait of
/// that change alone.
pub fn commit_shows_what_was_prepared()
    ensures shows { CommitShows }
    ensures others { CommitLeavesOthers }
    ensures dropped { CommitOfDropped }
    ensures ends { EndsOne (λ of. entries.Commit of) }
{}

/// An Abort ends the wait of the change that it names, and changes what no key has.
pub fn abort_only_ends_its_prepare()
    ensures shows { AbortShowsNothing }
    ensures ends { EndsOne (λ of. entries.Abort of) }
{}

/// A manifest takes the items of the collections that it drops, so that keys of a collection that
/// isn't there have nothing, and leaves the items of the others.
pub fn manifest_takes_what_it_drops()
    ensures taken { DroppedHasNothing }
    ensures left { ManifestLeavesOthers }
{}

/// What a key gets counts in place of what it had, and a change that waits beside it.
pub fn changes_count_once()
    ensures mutation { MutationCounts }
    ensures deletion { DeletionCounts }
    ensures prepare { PrepareCounts }
{}

/// Bytes are those of one entry at most, an entry that the layout allows has its bytes alone, and
/// they fit the layout.
pub fn entry_has_one_spelling()
    ensures one_entry { (first second : Entry) (bytes : List ℕ)
        → IsSpelled first bytes → IsSpelled second bytes → first ≡ second }
    ensures one_spelling { (e : Entry) (first second : List ℕ)
        → IsSpelled e first → IsSpelled e second → first ≡ second }
    ensures fits { (e : Entry) → IsAllowed e → Fits entry_layout (spelling e) }
{}

/// An entry's bytes are as many as its parts say.
pub fn spelling_has_its_length()
    ensures { (e : Entry) → length (spelling e) ≡ entry_length e }
{}

/// Bytes break the layout of an entry at one place at most, and then they are no entry's.
pub fn one_broken_place()
    ensures place { (bytes : List ℕ) (first second : ℕ)
        → BreaksAt bytes first → BreaksAt bytes second → first ≡ second }
    ensures none { (bytes : List ℕ) (place : ℕ) (e : Entry)
        → BreaksAt bytes place → IsSpelled e bytes → ⊥ }
{}

/// Bytes begin with one list of changes that wait at most. Where they begin with none, they break the
/// layout at one place.
pub fn pending_has_one_spelling()
    ensures one_list { (first second : List Pending) (rest more : List ℕ)
        → IsAllowedPending first → IsAllowedPending second
        → pending_bytes first ++ rest ≡ pending_bytes second ++ more → first ≡ second }
    ensures place { (bytes : List ℕ) (first second : ℕ)
        → PendingBreaksAt bytes first → PendingBreaksAt bytes second → first ≡ second }
    ensures none { (bytes : List ℕ) (place : ℕ) (ps : List Pending) (rest : List ℕ)
        → PendingBreaksAt bytes place → IsAllowedPending ps → bytes ≡ pending_bytes ps ++ rest → ⊥ }
{}

/// Bytes are those of one content at most, a content that has bytes has these alone, and they fit the
/// layout. Where bytes break the layout, they do so at one place, and are no content's.
pub fn content_has_one_spelling()
    ensures one_content { (first second : Content) (bytes : List ℕ)
        → IsContent first bytes → IsContent second bytes → first ≡ second }
    ensures fits { (c : Content) → HasBytes c → Fits content_layout (content_bytes c) }
    ensures place { (bytes : List ℕ) (first second : ℕ)
        → ContentBreaksAt bytes first → ContentBreaksAt bytes second → first ≡ second }
    ensures none { (bytes : List ℕ) (place : ℕ) (c : Content)
        → ContentBreaksAt bytes place → IsContent c bytes → ⊥ }
{}

/// A whole content is whole with one more entry that the layout allows and that can be added, as long
/// as positions last.
pub fn contents_stay_whole()
    ensures { (c : Content) (e : Entry)
        → IsWhole c → IsAllowed e → can_add c e ≡ true → c.length < GREATEST_POSITION
        → IsWhole (with_entry c e) }
{}
