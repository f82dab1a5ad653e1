// Conversions between types, and the choice among candidates.
use crate::{Choice, Conversion, Signature, Way, choose, convert};
use cc_base::{ClassId, List, Span};
use cc_core::{Access, ClassInfo, ClassKind, Classes, ClassesFault, CoreType, FieldInfo};
use std::alloc::{AllocError, Global};
use std::test::Fail;

/// The ranks of the conversions from each fundamental type, in the order of `FUNDAMENTAL`, to each.
const RANKS: [[u8; 10]; 10] = [
    [0, 2, 2, 2, 2, 2, 1, 2, 2, 2],
    [2, 0, 2, 2, 2, 2, 1, 2, 2, 2],
    [2, 2, 0, 2, 2, 2, 1, 2, 2, 2],
    [2, 2, 2, 0, 2, 2, 1, 2, 2, 2],
    [2, 2, 2, 2, 0, 2, 1, 2, 2, 2],
    [2, 2, 2, 2, 2, 0, 1, 2, 2, 2],
    [2, 2, 2, 2, 2, 2, 0, 2, 2, 2],
    [2, 2, 2, 2, 2, 2, 2, 0, 2, 2],
    [2, 2, 2, 2, 2, 2, 2, 2, 0, 2],
    [2, 2, 2, 2, 2, 2, 2, 2, 2, 0],
];

fn fundamental() -> [CoreType; 10] {
    [
        CoreType::Bool,
        CoreType::Char,
        CoreType::I8,
        CoreType::U8,
        CoreType::I16,
        CoreType::U16,
        CoreType::I32,
        CoreType::U32,
        CoreType::I64,
        CoreType::U64,
    ]
}

const OBJECT: ClassId = ClassId(0);

const VALUE_TYPE: ClassId = ClassId(2);

const ENUM: ClassId = ClassId(3);
/// An interface class.
const SHAPE: ClassId = ClassId(14);
/// An interface class that derives from `Shape`.
const ROUND: ClassId = ClassId(15);
/// An interface class.
const NAMED: ClassId = ClassId(16);
/// A ref class that lists `Round` and `Named`.
const DISC: ClassId = ClassId(17);
/// A ref class that derives from `Disc`.
const COIN: ClassId = ClassId(18);
/// A value class that lists `Shape`.
const POINT: ClassId = ClassId(19);
/// An enum.
const COLOUR: ClassId = ClassId(20);

/// The first classes of the library, up to that of `unsigned long long`, and some of a source.
const CLASSES: [(ClassKind, Option<ClassId>, &[ClassId]); 21] = [
    (ClassKind::Ref, None, &[]),
    (ClassKind::Ref, Some(OBJECT), &[]),
    (ClassKind::Ref, Some(OBJECT), &[]),
    (ClassKind::Ref, Some(VALUE_TYPE), &[]),
    (ClassKind::Value, Some(VALUE_TYPE), &[]),
    (ClassKind::Value, Some(VALUE_TYPE), &[]),
    (ClassKind::Value, Some(VALUE_TYPE), &[]),
    (ClassKind::Value, Some(VALUE_TYPE), &[]),
    (ClassKind::Value, Some(VALUE_TYPE), &[]),
    (ClassKind::Value, Some(VALUE_TYPE), &[]),
    (ClassKind::Value, Some(VALUE_TYPE), &[]),
    (ClassKind::Value, Some(VALUE_TYPE), &[]),
    (ClassKind::Value, Some(VALUE_TYPE), &[]),
    (ClassKind::Value, Some(VALUE_TYPE), &[]),
    (ClassKind::Interface, None, &[]),
    (ClassKind::Interface, None, &[SHAPE]),
    (ClassKind::Interface, None, &[]),
    (ClassKind::Ref, Some(OBJECT), &[ROUND, NAMED]),
    (ClassKind::Ref, Some(DISC), &[]),
    (ClassKind::Value, Some(VALUE_TYPE), &[SHAPE]),
    (ClassKind::Enum, Some(ENUM), &[]),
];

/// A field of a value class's type, and whether it is static.
type Part = (ClassId, bool);

fn fields(alloc: Global, parts: &[Part]) -> Result<List<FieldInfo>, AllocError> {
    let mut fields = List::new(alloc);
    for (class, is_static) in parts {
        fields.push(FieldInfo {
            name: List::new(alloc),
            span: Span { first: 0, past: 0 },
            holds: CoreType::Value(*class),
            access: Access::Public,
            is_static: *is_static,
            on_stack: false,
        })?;
    }
    Ok(fields)
}

fn class(
    alloc: Global,
    kind: ClassKind,
    base: Option<ClassId>,
    interfaces: &[ClassId],
    parts: &[Part],
) -> Result<ClassInfo, AllocError> {
    Ok(ClassInfo {
        name: List::new(alloc),
        span: Span { first: 0, past: 0 },
        kind,
        base,
        interfaces: List::from_slice(alloc, interfaces)?,
        is_abstract: false,
        is_sealed: false,
        fields: fields(alloc, parts)?,
        methods: List::new(alloc),
    })
}

fn classes(alloc: Global) -> Result<Classes, ClassesFault> {
    let mut classes = List::new(alloc);
    for (kind, base, interfaces) in CLASSES {
        classes.push(class(alloc, kind, base, interfaces, &[])?)?;
    }
    Classes::new(alloc, classes)
}

const FIRST: ClassId = ClassId(0);

const SECOND: ClassId = ClassId(1);

const THIRD: ClassId = ClassId(2);

/// Two classes, by their base, interfaces and parts, and what is wrong with them.
type Pair = (
    [(
        ClassKind,
        Option<ClassId>,
        &'static [ClassId],
        &'static [Part],
    ); 2],
    Option<ClassesFault>,
);

const PAIRS: [Pair; 8] = [
    (
        [
            (ClassKind::Ref, Some(SECOND), &[], &[]),
            (ClassKind::Ref, None, &[], &[]),
        ],
        None,
    ),
    (
        [
            (ClassKind::Ref, None, &[], &[]),
            (ClassKind::Ref, Some(THIRD), &[], &[]),
        ],
        Some(ClassesFault::NamesNoClass(SECOND)),
    ),
    (
        [
            (ClassKind::Ref, None, &[], &[(THIRD, true)]),
            (ClassKind::Ref, None, &[], &[]),
        ],
        Some(ClassesFault::NamesNoClass(FIRST)),
    ),
    (
        [
            (ClassKind::Ref, Some(SECOND), &[], &[]),
            (ClassKind::Ref, Some(FIRST), &[], &[]),
        ],
        Some(ClassesFault::DerivesFromItself(FIRST)),
    ),
    (
        [
            (ClassKind::Interface, None, &[], &[]),
            (ClassKind::Interface, None, &[FIRST, SECOND], &[]),
        ],
        Some(ClassesFault::DerivesFromItself(SECOND)),
    ),
    (
        [
            (ClassKind::Value, None, &[], &[(SECOND, false)]),
            (ClassKind::Value, None, &[], &[(FIRST, false)]),
        ],
        Some(ClassesFault::HoldsItself(FIRST)),
    ),
    (
        [
            (ClassKind::Value, None, &[], &[(SECOND, false)]),
            (ClassKind::Value, None, &[], &[(FIRST, true)]),
        ],
        None,
    ),
    (
        [
            (ClassKind::Ref, None, &[], &[(SECOND, false)]),
            (ClassKind::Value, None, &[], &[(SECOND, false)]),
        ],
        Some(ClassesFault::HoldsItself(SECOND)),
    ),
];

#[test]
fn lists_that_are_no_classes_are_refused(rt: HostRuntime) -> Result<(), Fail> {
    let alloc = rt.alloc();
    for (pair, want) in PAIRS {
        let mut classes = List::new(alloc);
        for (kind, base, interfaces, parts) in pair {
            classes.push(class(alloc, kind, base, interfaces, parts)?)?;
        }
        let fault = match Classes::new(alloc, classes) {
            Ok(_) => None,
            Err(fault) => Some(fault),
        };
        assert!(rt; fault == want, "{pair:?}");
    }
    Ok(())
}

/// A type of the tables below.
#[derive(Clone, Copy, Debug)]
enum Form {
    Void,
    Bool,
    I16,
    I32,
    U32,
    I64,
    Null,
    Enum(ClassId),
    Value(ClassId),
    Handle(ClassId),
    /// An array of `int`.
    Numbers,
    /// An array of handles.
    Handles(ClassId),
    /// A place of type `int`.
    Place,
}

fn made(alloc: Global, form: Form) -> Result<CoreType, AllocError> {
    match form {
        Form::Void => Ok(CoreType::Void),
        Form::Bool => Ok(CoreType::Bool),
        Form::I16 => Ok(CoreType::I16),
        Form::I32 => Ok(CoreType::I32),
        Form::U32 => Ok(CoreType::U32),
        Form::I64 => Ok(CoreType::I64),
        Form::Null => Ok(CoreType::Null),
        Form::Enum(class) => Ok(CoreType::Enum(class)),
        Form::Value(class) => Ok(CoreType::Value(class)),
        Form::Handle(class) => Ok(CoreType::Handle(class)),
        Form::Numbers => Ok(CoreType::Array(Box::new(alloc, CoreType::I32)?)),
        Form::Handles(class) => Ok(CoreType::Array(Box::new(alloc, CoreType::Handle(class))?)),
        Form::Place => Ok(CoreType::Track(Box::new(alloc, CoreType::I32)?)),
    }
}

fn all_made(alloc: Global, forms: &[Form]) -> Result<Vec<CoreType>, AllocError> {
    let mut types = Vec::new(alloc);
    for form in forms {
        types.push(made(alloc, *form)?)?;
    }
    Ok(types)
}

#[test]
fn fundamental_types_convert(rt: HostRuntime) -> Result<(), Fail> {
    let classes = classes(rt.alloc())?;
    for (from, ranks) in fundamental().iter().zip(RANKS.iter()) {
        for (to, rank) in fundamental().iter().zip(ranks.iter()) {
            let way = match *rank {
                0 => Way::Same,
                1 => Way::Promote,
                _ => Way::Number,
            };
            let want = Conversion { rank: *rank, way };
            assert!(rt;
                convert(from, to, &classes) == Some(want),
                "{from:?} {to:?}"
            );
        }
    }
    Ok(())
}

const SAME: Option<Conversion> = Some(Conversion {
    rank: 0,
    way: Way::Same,
});

const REFERENCE: Option<Conversion> = Some(Conversion {
    rank: 3,
    way: Way::Reference,
});

const BOXED: Option<Conversion> = Some(Conversion {
    rank: 4,
    way: Way::Boxed,
});

const CONVERSIONS: [(Form, Form, Option<Conversion>); 32] = [
    (Form::Handle(COIN), Form::Handle(COIN), SAME),
    (Form::Handle(COIN), Form::Handle(DISC), REFERENCE),
    (Form::Handle(COIN), Form::Handle(ROUND), REFERENCE),
    (Form::Handle(COIN), Form::Handle(SHAPE), REFERENCE),
    (Form::Handle(DISC), Form::Handle(COIN), None),
    (Form::Handle(ROUND), Form::Handle(SHAPE), REFERENCE),
    (Form::Handle(SHAPE), Form::Handle(ROUND), None),
    (Form::Handle(SHAPE), Form::Handle(OBJECT), REFERENCE),
    (Form::Handle(OBJECT), Form::Handle(SHAPE), None),
    (Form::Numbers, Form::Handle(OBJECT), REFERENCE),
    (Form::Numbers, Form::Handle(SHAPE), None),
    (Form::Numbers, Form::Numbers, SAME),
    (Form::Handles(COIN), Form::Handles(DISC), None),
    (Form::Null, Form::Handle(DISC), REFERENCE),
    (Form::Null, Form::Numbers, REFERENCE),
    (Form::Null, Form::Value(POINT), None),
    (Form::Null, Form::I32, None),
    (Form::Value(POINT), Form::Value(POINT), SAME),
    (Form::Value(POINT), Form::Handle(OBJECT), BOXED),
    (Form::Value(POINT), Form::Handle(SHAPE), BOXED),
    (Form::Value(POINT), Form::Handle(ROUND), None),
    (Form::Value(POINT), Form::Handle(VALUE_TYPE), None),
    (Form::Enum(COLOUR), Form::Handle(OBJECT), BOXED),
    (Form::Enum(COLOUR), Form::I32, None),
    (Form::I32, Form::Enum(COLOUR), None),
    (Form::I32, Form::Handle(OBJECT), BOXED),
    (Form::Bool, Form::Handle(SHAPE), None),
    (Form::Bool, Form::Handle(VALUE_TYPE), None),
    (Form::Handle(OBJECT), Form::I32, None),
    (Form::Handle(OBJECT), Form::Value(POINT), None),
    (Form::Void, Form::I32, None),
    (Form::I32, Form::Place, None),
];

#[test]
fn other_types_convert(rt: HostRuntime) -> Result<(), Fail> {
    let alloc = rt.alloc();
    let classes = classes(alloc)?;
    for (from, to, want) in &CONVERSIONS {
        let source = made(alloc, *from)?;
        let target = made(alloc, *to)?;
        assert!(rt;
            convert(&source, &target, &classes) == *want,
            "{from:?} {to:?}"
        );
    }
    Ok(())
}

fn signatures(alloc: Global, lists: &[&[Form]]) -> Result<Vec<Signature>, AllocError> {
    let mut candidates = Vec::new(alloc);
    for forms in lists {
        let parameters = List::from_vec(all_made(alloc, forms)?);
        candidates.push(Signature { parameters })?;
    }
    Ok(candidates)
}

const LONG: &[Form] = &[Form::I64];

const INT: &[Form] = &[Form::I32];

const UNSIGNED: &[Form] = &[Form::U32];

const PLACE: &[Form] = &[Form::Place];

const TO_OBJECT: &[Form] = &[Form::Handle(OBJECT)];

const TO_SHAPE: &[Form] = &[Form::Handle(SHAPE)];

const TO_ROUND: &[Form] = &[Form::Handle(ROUND)];

const TO_NAMED: &[Form] = &[Form::Handle(NAMED)];

const TO_DISC: &[Form] = &[Form::Handle(DISC)];

const TO_COIN: &[Form] = &[Form::Handle(COIN)];

const TO_POINT: &[Form] = &[Form::Value(POINT)];

const INT_LONG: &[Form] = &[Form::I32, Form::I64];

const LONG_INT: &[Form] = &[Form::I64, Form::I32];

const INT_INT: &[Form] = &[Form::I32, Form::I32];

const CALLS: [(&[&[Form]], &[Form], Choice); 21] = [
    (&[LONG, UNSIGNED], INT, Choice::Tie(0, 1)),
    (&[LONG, INT], &[Form::I16], Choice::One(1)),
    (&[LONG, TO_OBJECT, UNSIGNED], INT, Choice::Tie(0, 2)),
    (&[TO_SHAPE, LONG, UNSIGNED], INT, Choice::Tie(1, 2)),
    (&[TO_OBJECT, TO_DISC, TO_SHAPE], TO_COIN, Choice::One(1)),
    (&[TO_SHAPE, TO_ROUND], TO_COIN, Choice::One(1)),
    (&[TO_NAMED, TO_SHAPE], TO_COIN, Choice::Tie(0, 1)),
    (&[TO_NAMED, TO_OBJECT, TO_ROUND], TO_DISC, Choice::Tie(0, 2)),
    (&[TO_COIN, TO_OBJECT], &[Form::Null], Choice::One(0)),
    (&[TO_COIN, TO_NAMED], &[Form::Null], Choice::One(0)),
    (&[TO_OBJECT, TO_SHAPE], TO_POINT, Choice::Tie(0, 1)),
    (&[INT, INT, INT], INT, Choice::Tie(0, 1)),
    (&[PLACE, INT], PLACE, Choice::Tie(0, 1)),
    (&[PLACE, LONG], PLACE, Choice::One(0)),
    (&[PLACE, LONG], INT, Choice::One(1)),
    (&[PLACE], &[Form::I16], Choice::None),
    (&[TO_POINT], &[Form::Null], Choice::None),
    (&[&[], INT_LONG, LONG_INT], INT_INT, Choice::Tie(1, 2)),
    (&[&[], INT_LONG, LONG_INT, INT_INT], INT_INT, Choice::One(3)),
    (&[INT, &[]], &[], Choice::One(1)),
    (&[INT_LONG, LONG_INT], INT, Choice::None),
];

#[test]
fn calls_choose(rt: HostRuntime) -> Result<(), Fail> {
    let alloc = rt.alloc();
    let classes = classes(alloc)?;
    for (lists, arguments, want) in &CALLS {
        let candidates = signatures(alloc, lists)?;
        let given = all_made(alloc, arguments)?;
        assert!(rt; candidates.len() < 100);
        let choice = choose(candidates.as_slice(), given.as_slice(), &classes);
        assert!(rt; choice == *want, "{lists:?} {arguments:?}");
    }
    Ok(())
}
