//! The annotations of a policy: made, and then handed out.
ghost use Rattle.std.specs.Prelude.{◌≡◌, ◌≤◌, [], length, IfOk};
ghost use Rattle.std.specs.Vec.{vec_capacity};
ghost use Rattle.cedar_answers.specs.Made.{annotation_made, annotations_made};
ghost use Rattle.cedar_answers.specs.Told.{annotation_read, annotations_read, annotations_told};

use crate::answer::CedarAnnotation;
use crate::made::MadeAnnotation;
use crate::texts::handed_text;
use cedar_policy_parser::Annotations;
use std::alloc::{AllocError, Global};

/// The annotations, in the order of their keys.
pub(crate) fn made_annotations(
    alloc: Global,
    annotations: &Annotations,
) -> Result<Vec<MadeAnnotation>, AllocError>
    ensures { IfOk result (λ all. annotations_made all.items ≡ annotations_told annotations.now) }
{
    let mut all = Vec::with_capacity(alloc, annotations.len())?;
    for (key, annotation) in annotations.iter() {
        let key = String::from_str(alloc, key.as_str())?;
        let value = String::from_str(alloc, annotation.as_str())?;
        all.push(MadeAnnotation { key, value })?;
    }
    Ok(all)
}

/// Hands all out; there is room for it.
pub(crate) fn handed_annotations(
    made: Vec<MadeAnnotation>,
    room: Vec<CedarAnnotation>,
) -> &'static [CedarAnnotation]
    requires fits { length made.items ≤ vec_capacity room }
    requires empty { room.items ≡ [] }
    ensures { annotations_read result.now ≡ annotations_made made.items }
{
    let mut all = room;
    for annotation in made {
        all.push_reserved(handed_annotation(annotation));
    }
    all.leak()
}

fn handed_annotation(annotation: MadeAnnotation) -> CedarAnnotation
    ensures { annotation_read result ≡ annotation_made annotation }
{
    CedarAnnotation {
        key: handed_text(annotation.key),
        value: handed_text(annotation.value),
    }
}
