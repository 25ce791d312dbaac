//! The numbers of statuses.

ghost use Rattle.std.specs.Prelude.{◌≡◌};

use crate::status::Status;

/// Each status has the number that the memcached binary protocol, and Couchbase's part of it, give it.
pub fn status_numbers()
    ensures success { Status.SUCCESS.code ≡ 0 }
    ensures key_enoent { Status.KEY_ENOENT.code ≡ 1 }
    ensures key_eexists { Status.KEY_EEXISTS.code ≡ 2 }
    ensures e2big { Status.E2BIG.code ≡ 3 }
    ensures einval { Status.EINVAL.code ≡ 4 }
    ensures not_stored { Status.NOT_STORED.code ≡ 5 }
    ensures delta_badval { Status.DELTA_BADVAL.code ≡ 6 }
    ensures not_my_vbucket { Status.NOT_MY_VBUCKET.code ≡ 7 }
    ensures unknown_command { Status.UNKNOWN_COMMAND.code ≡ 129 }
    ensures enomem { Status.ENOMEM.code ≡ 130 }
    ensures not_supported { Status.NOT_SUPPORTED.code ≡ 131 }
    ensures ebusy { Status.EBUSY.code ≡ 133 }
    ensures etmpfail { Status.ETMPFAIL.code ≡ 134 }
    ensures unknown_collection { Status.UNKNOWN_COLLECTION.code ≡ 136 }
    ensures cannot_apply_manifest { Status.CANNOT_APPLY_MANIFEST.code ≡ 138 }
    ensures manifest_is_ahead { Status.MANIFEST_IS_AHEAD.code ≡ 139 }
    ensures unknown_scope { Status.UNKNOWN_SCOPE.code ≡ 140 }
    ensures durability_invalid_level { Status.DURABILITY_INVALID_LEVEL.code ≡ 160 }
    ensures durability_impossible { Status.DURABILITY_IMPOSSIBLE.code ≡ 161 }
    ensures sync_write_in_progress { Status.SYNC_WRITE_IN_PROGRESS.code ≡ 162 }
    ensures sync_write_ambiguous { Status.SYNC_WRITE_AMBIGUOUS.code ≡ 163 }
    ensures sync_write_re_commit_in_progress { Status.SYNC_WRITE_RE_COMMIT_IN_PROGRESS.code ≡ 164 }
    ensures path_enoent { Status.PATH_ENOENT.code ≡ 192 }
    ensures path_mismatch { Status.PATH_MISMATCH.code ≡ 193 }
    ensures path_einval { Status.PATH_EINVAL.code ≡ 194 }
    ensures path_e2big { Status.PATH_E2BIG.code ≡ 195 }
    ensures doc_e2deep { Status.DOC_E2DEEP.code ≡ 196 }
    ensures value_cant_insert { Status.VALUE_CANT_INSERT.code ≡ 197 }
    ensures doc_not_json { Status.DOC_NOT_JSON.code ≡ 198 }
    ensures num_erange { Status.NUM_ERANGE.code ≡ 199 }
    ensures delta_einval { Status.DELTA_EINVAL.code ≡ 200 }
    ensures path_eexists { Status.PATH_EEXISTS.code ≡ 201 }
    ensures value_etoodeep { Status.VALUE_ETOODEEP.code ≡ 202 }
    ensures invalid_combo { Status.INVALID_COMBO.code ≡ 203 }
    ensures multi_path_failure { Status.MULTI_PATH_FAILURE.code ≡ 204 }
    ensures xattr_invalid_flag_combo { Status.XATTR_INVALID_FLAG_COMBO.code ≡ 206 }
    ensures xattr_invalid_key_combo { Status.XATTR_INVALID_KEY_COMBO.code ≡ 207 }
    ensures xattr_unknown_macro { Status.XATTR_UNKNOWN_MACRO.code ≡ 208 }
    ensures xattr_unknown_vattr { Status.XATTR_UNKNOWN_VATTR.code ≡ 209 }
    ensures invalid_xattr_order { Status.INVALID_XATTR_ORDER.code ≡ 212 }
{}
