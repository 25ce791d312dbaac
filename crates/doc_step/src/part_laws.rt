//! What those who look at parts of documents and edit them rely on, as laws of the document step.

ghost use Rattle.std.specs.Prelude.{◌≡◌, ℕ, ◌+◌, ◌≤◌, List, [], ◌∷◌, length, ◌⊎◌, ℤ};
ghost use Rattle.std.specs.Prelude.{Option, Some, None, Ok, Err};
ghost use Rattle.std.specs.Int.{w16, to_be_bytes};
ghost use Rattle.doc_model.specs.declared.key.DocKey.{DocKey};
ghost use Rattle.doc_model.specs.declared.document.Doc.{Doc};
ghost use Rattle.doc_model.specs.declared.status.Status.{Status};
ghost use Rattle.doc_model.specs.declared.status.TheConstants.Status as status;
ghost use Rattle.kv_request.specs.declared.reading.TheConstants.{VALUE_LIMIT};
ghost use Rattle.kv_request.specs.declared.request.Request.{Request};
ghost use Rattle.kv_request.specs.declared.request.Spec.{Spec};
ghost use Rattle.kv_request.specs.declared.request.Body.TheVariants as bodies;
ghost use Rattle.kv_request.specs.declared.request.Mode.TheVariants as modes;
ghost use Rattle.doc_step.specs.declared.Change.{Change};
ghost use Rattle.doc_step.specs.declared.Effect.TheVariants as effects;
ghost use Rattle.doc_step.specs.Expiry.{Setting, there};
ghost use Rattle.doc_step.specs.Parts.{doc_to_edit, look_result, number_text, edit_result};
ghost use Rattle.doc_step.specs.Step.{document_step};
ghost use Rattle.doc_step.specs.Laws.{effect_of, Spares, FailsAt, TellsFailure};

/// A look at parts of a document changes nothing.
pub fn looking_changes_nothing()
    ensures one { (s : Setting) (request : Request) (doc : Option Doc) (key : DocKey) (spec : Spec)
        → request.body ≡ bodies.Look key spec
        → effect_of (document_step s request doc) ≡ effects.Nothing }
    ensures several { (s : Setting) (request : Request) (doc : Option Doc) (key : DocKey)
        (specs : List Spec) → request.body ≡ bodies.MultiLook key specs
        → effect_of (document_step s request doc) ≡ effects.Nothing }
{}

/// Edits leave flags, and the expiry where the request gives none. Those of the value leave the
/// extended attributes, and those of attributes leave the value.
pub fn editing_keeps_the_rest()
    ensures one { (s : Setting) (request : Request) (doc found made : Doc) (key : DocKey) (spec : Spec)
        (expiry : Option ℕ) (flags : ℕ) → request.body ≡ bodies.Edit key spec expiry flags
        → there s.now (Some doc) ≡ Some found
        → effect_of (document_step s request (Some doc)) ≡ effects.Put made
        → Spares found made expiry (spec ∷ []) }
    ensures several { (s : Setting) (request : Request) (doc found made : Doc) (key : DocKey)
        (specs : List Spec) (expiry : Option ℕ) (flags : ℕ)
        → request.body ≡ bodies.MultiEdit key specs expiry flags
        → there s.now (Some doc) ≡ Some found
        → effect_of (document_step s request (Some doc)) ≡ effects.Put made
        → Spares found made expiry specs }
{}

/// Edits ask for a document that is there: without a flag of their own they make none.
pub fn edits_make_no_documents_unasked()
    ensures one { (s : Setting) (request : Request) (key : DocKey) (spec : Spec) (expiry : Option ℕ)
        → request.body ≡ bodies.Edit key spec expiry 0
        → effect_of (document_step s request None) ≡ effects.Nothing }
    ensures several { (s : Setting) (request : Request) (key : DocKey) (specs : List Spec)
        (expiry : Option ℕ) → request.body ≡ bodies.MultiEdit key specs expiry 0
        → effect_of (document_step s request None) ≡ effects.Nothing }
{}

/// Where one of several edits fails, nothing is changed, and the reply names the first that fails, by
/// its place from 0 on, with its status: all before it were made, and it is refused so on what they
/// left.
pub fn first_failing_edit_is_named()
    ensures { (s : Setting) (request : Request) (doc : Option Doc) (change : Change) (key : DocKey)
        (specs : List Spec) (expiry : Option ℕ) (flags : ℕ)
        → request.body ≡ bodies.MultiEdit key specs expiry flags
        → document_step s request doc ≡ Ok change
        → change.reply.status ≡ status.MULTI_PATH_FAILURE
        → (place : ℕ) × (refusing : Status) × (begun : Doc)
        × TellsFailure change (place ∷ to_be_bytes w16 refusing.code)
        × (doc_to_edit s expiry flags specs (there s.now doc) ≡ Ok begun)
        × FailsAt specs flags begun place refusing }
{}

/// A request of one edit does and answers what the edit alone does, but for the form in which its
/// number or its status is told.
pub fn one_edit_is_as_alone()
    ensures made { (s : Setting) (alone among : Request) (doc : Option Doc) (change : Change)
        (key : DocKey) (spec : Spec) (expiry : Option ℕ) (flags : ℕ)
        → alone.body ≡ bodies.Edit key spec expiry flags
        → among.body ≡ bodies.MultiEdit key (spec ∷ []) expiry flags → alone.cas ≡ among.cas
        → document_step s alone doc ≡ Ok change
        → (told : Change) × (number : Option ℤ) × (document_step s among doc ≡ Ok told)
        × (told.effect ≡ change.effect) × (told.reply.status ≡ change.reply.status)
        × (told.reply.cas ≡ change.reply.cas) × (change.reply.value ≡ number_text number)
        × (told.reply.value ≡ edit_result 0 number) }
    ensures refused { (s : Setting) (alone among : Request) (doc : Option Doc) (refusing : Status)
        (key : DocKey) (spec : Spec) (expiry : Option ℕ) (flags : ℕ)
        → alone.body ≡ bodies.Edit key spec expiry flags
        → among.body ≡ bodies.MultiEdit key (spec ∷ []) expiry flags → alone.cas ≡ among.cas
        → document_step s alone doc ≡ Err refusing
        → (document_step s among doc ≡ Err refusing)
        ⊎ ((told : Change) × (document_step s among doc ≡ Ok told)
        × TellsFailure told (0 ∷ to_be_bytes w16 refusing.code)) }
{}

/// A request of one look-up answers what the look-up alone does, but for the form in which what was
/// found or its status is told, and unless that passes the limit.
pub fn one_look_is_as_alone()
    ensures found { (s : Setting) (alone among : Request) (doc : Option Doc) (change : Change)
        (key : DocKey) (spec : Spec)
        → alone.body ≡ bodies.Look key spec → among.body ≡ bodies.MultiLook key (spec ∷ [])
        → alone.cas ≡ among.cas → document_step s alone doc ≡ Ok change
        → length change.reply.value + 6 ≤ VALUE_LIMIT
        → (told : Change) × (document_step s among doc ≡ Ok told)
        × (told.reply.status ≡ change.reply.status) × (told.reply.cas ≡ change.reply.cas)
        × (told.reply.value ≡ look_result (Ok change.reply.value)) }
    ensures refused { (s : Setting) (alone among : Request) (doc : Option Doc) (refusing : Status)
        (key : DocKey) (spec : Spec)
        → alone.body ≡ bodies.Look key spec → among.body ≡ bodies.MultiLook key (spec ∷ [])
        → alone.cas ≡ among.cas → document_step s alone doc ≡ Err refusing
        → (document_step s among doc ≡ Err refusing)
        ⊎ ((told : Change) × (document_step s among doc ≡ Ok told)
        × TellsFailure told (look_result (Err refusing))) }
{}

/// A Set keeps the extended attributes of a document that is there, and stores none where none is:
/// what a Delete took doesn't come back.
pub fn storing_keeps_the_attributes()
    ensures there { (s : Setting) (request : Request) (doc found made : Doc) (key : DocKey)
        (flags expiry : ℕ) (value : List ℕ)
        → request.body ≡ bodies.Store key modes.Set flags expiry value
        → there s.now (Some doc) ≡ Some found
        → effect_of (document_step s request (Some doc)) ≡ effects.Put made
        → made.xattrs ≡ found.xattrs }
    ensures none { (s : Setting) (request : Request) (made : Doc) (key : DocKey) (flags expiry : ℕ)
        (value : List ℕ)
        → request.body ≡ bodies.Store key modes.Set flags expiry value
        → effect_of (document_step s request None) ≡ effects.Put made
        → made.xattrs ≡ [] }
{}
