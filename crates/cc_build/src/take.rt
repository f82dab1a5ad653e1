// The topmost value, taken off. What isn't of the wanted kind stands for nothing of that kind.
pub use crate::take_classes::{
    base, bases, class, class_modifiers, enumeration, enumerator, enumerators, function, head, key,
    outer, outers, template, template_parameter, template_parameters, unit,
};
pub use crate::take_members::{
    accessor, accessors, body, initializer, initializers, member, members, modifiers,
    named_function, named_functions, overridden, parameter_list, parameters, property_name,
    property_type,
};
pub use crate::take_names::{
    character, literal, mark, modifier, name, names, number, operator, path, qualified, storage,
};
pub use crate::take_phrases::{
    arguments, block, catches, caught, declarator, declarators, expression, expressions, for_start,
    label, labels, local, optional, sections, statement, statements, texts, type_arguments,
    type_name, types,
};
use cc_pushdown::Value;

/// Lets a value go.
pub fn discard(_value: Value) {}
