// Laws: the check answers exactly what the rules of typing reach, and notes exactly what a typed body has.

ghost use Rattle.code_valid.specs.Survey.{SurveyNotes};
ghost use Rattle.code_valid.specs.Laws.{CheckIsExact, AcceptsWhatIsTyped, TypedHasMarks, MarksAreUnique, LiveTypesAreKnown, MarksAreComputed, OnlyComputed};

use crate::marks::Marks;
use crate::typed_body::TypedBody;

/// The check answers exactly what the rules of typing reach. (Standard, 3.3)
pub fn check_is_exact()
    ensures { CheckIsExact }
{}

/// The check accepts a body exactly if the rules type it. (Standard, 3.3)
pub fn accepts_what_is_typed()
    ensures { AcceptsWhatIsTyped }
{}

/// What the check notes of a typed body are the marks and the height that the body has.
pub fn typed_has_marks()
    ensures { TypedHasMarks }
{}

/// A body has no second list of marks and no second height.
pub fn marks_are_unique()
    ensures { MarksAreUnique }
{}

/// Up to a live end the type of each operand is known.
pub fn live_types_are_known()
    ensures { LiveTypesAreKnown }
{}

/// The check in one pass notes the marks and the height.
pub fn survey_notes()
    ensures { SurveyNotes }
{}

/// Typed code has the marks and the height that a forward pass over live code computes, and no others.
pub fn marks_are_computed()
    ensures has { MarksAreComputed }
    ensures only { OnlyComputed }
{}

/// Marks and typed bodies may be sent to other threads, and several threads may read one at once.
pub fn bodies_cross_threads(marks: &Marks, body: &TypedBody) {
    is_send_and_sync(marks);
    is_send_and_sync(body);
}

fn is_send_and_sync<T: Send + Sync>(_value: &T) {}
