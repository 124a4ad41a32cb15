//! Laws of classes and of objects, for the reader of their definitions.
ghost use Rattle.resin_heap.specs.Laws.{ParentsAreSmaller, IsItself, IsWhatItsParentIs, IsNothingElse, OwnMethodsGoFirst};
ghost use Rattle.resin_heap.specs.Laws.{MethodsAreInherited, NoOtherMethods, ParentsPropertiesGoFirst, NoOtherProperties};
ghost use Rattle.resin_heap.specs.Laws.{FindsWhatWasSet, SetsOneField, KeepsPlaces, ForgetsWhatWasUnset};
ghost use Rattle.resin_heap.specs.Laws.{UnsetsOneField, HasItsFields, ChangesOneObject, KeepsClasses};

/// Does nothing. Its contract says of the definitions of classes that parents have smaller numbers, that a class is itself and what its parent is
/// and nothing else, that its own methods go before those that it inherits, and that the properties of its parent go before its own.
pub fn class_laws()
    ensures parents_are_smaller { ParentsAreSmaller }
    ensures is_itself { IsItself }
    ensures is_what_its_parent_is { IsWhatItsParentIs }
    ensures is_nothing_else { IsNothingElse }
    ensures own_methods_go_first { OwnMethodsGoFirst }
    ensures methods_are_inherited { MethodsAreInherited }
    ensures no_other_methods { NoOtherMethods }
    ensures parents_properties_go_first { ParentsPropertiesGoFirst }
    ensures no_other_properties { NoOtherProperties }
{}

/// Does nothing. Its contract says of the definitions of fields and objects that a field has the value that it was given, that a change of one
/// field leaves the others and the order, that a field that was taken out is gone, and that a change of one object leaves the others.
pub fn object_laws()
    ensures finds_what_was_set { FindsWhatWasSet }
    ensures sets_one_field { SetsOneField }
    ensures keeps_places { KeepsPlaces }
    ensures forgets_what_was_unset { ForgetsWhatWasUnset }
    ensures unsets_one_field { UnsetsOneField }
    ensures has_its_fields { HasItsFields }
    ensures changes_one_object { ChangesOneObject }
    ensures keeps_classes { KeepsClasses }
{}
