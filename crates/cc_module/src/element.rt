// The elements that types are made of (ECMA-335, II.23.1.16 and II.23.2.12).
ghost use Rattle.std.specs.Prelude.{◌≡◌, ◌<◌, ◌^◌};
ghost use Rattle.cc_module.specs.Signatures.{coded, mark, arity};

/// A type that a signature names: a row, counted from 1, of one of three tables (ECMA-335, II.23.2.8).
#[derive(Clone, Copy, Debug, PartialEq, Eq)]
pub enum TypeDefOrRef {
    TypeDef(u32),
    TypeRef(u32),
    TypeSpec(u32),
}

/// An element of a type. The types that an element is made of follow it: one after a pointer or an array, the arguments
/// after an instance.
#[derive(Clone, Copy, Debug, PartialEq, Eq)]
pub enum Element {
    /// `01`: no value: a method's result alone.
    Void,
    /// `02`: `bool`.
    Boolean,
    /// `03`: `wchar_t`.
    Char,
    /// `04`: `signed char`.
    I1,
    /// `05`: `unsigned char`.
    U1,
    /// `06`: `short`.
    I2,
    /// `07`: `unsigned short`.
    U2,
    /// `08`: `int`.
    I4,
    /// `09`: `unsigned int`.
    U4,
    /// `0A`: `long long`.
    I8,
    /// `0B`: `unsigned long long`.
    U8,
    /// `0E`: `System::String`.
    String,
    /// `10`: a managed pointer to a type.
    Pointer,
    /// `11`: a value type.
    ValueType(TypeDefOrRef),
    /// `12`: another type.
    Class(TypeDefOrRef),
    /// `13`: a type parameter of the type, by its number.
    TypeVariable(u32),
    /// `15`: an instance of a generic type, with the number of its arguments.
    Instance {
        is_value_type: bool,
        definition: TypeDefOrRef,
        arguments: u32,
    },
    /// `1C`: `System::Object`.
    Object,
    /// `1D`: an array of a type, of one dimension.
    Array,
    /// `1E`: a type parameter of the method, by its number.
    MethodVariable(u32),
}

impl TypeDefOrRef {
    /// The row with the tag of its table in the two lowest bits.
    pub fn coded(&self) -> u32
        requires { coded self.now < 2 ^ 29 }
        ensures { result ≡ coded self.now }
    {
        match *self {
            TypeDefOrRef::TypeDef(row) => row * 4,
            TypeDefOrRef::TypeRef(row) => row * 4 + 1,
            TypeDefOrRef::TypeSpec(row) => row * 4 + 2,
        }
    }
}

impl Element {
    /// The byte that the element begins with.
    pub fn mark(&self) -> u8
        ensures { result ≡ mark self.now }
    {
        match self {
            Element::Void => 0x01,
            Element::Boolean => 0x02,
            Element::Char => 0x03,
            Element::I1 => 0x04,
            Element::U1 => 0x05,
            Element::I2 => 0x06,
            Element::U2 => 0x07,
            Element::I4 => 0x08,
            Element::U4 => 0x09,
            Element::I8 => 0x0A,
            Element::U8 => 0x0B,
            Element::String => 0x0E,
            Element::Pointer => 0x10,
            Element::Object => 0x1C,
            Element::Array => 0x1D,
            Element::ValueType(_) => 0x11,
            Element::Class(_) => 0x12,
            Element::TypeVariable(_) => 0x13,
            Element::Instance { .. } => 0x15,
            Element::MethodVariable(_) => 0x1E,
        }
    }

    /// How many types follow the element.
    pub fn arity(&self) -> u32
        ensures { result ≡ arity self.now }
    {
        match *self {
            Element::Pointer => 1,
            Element::Array => 1,
            Element::Instance { arguments, .. } => arguments,
            _ => 0,
        }
    }
}
