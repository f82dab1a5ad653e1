// Laws of what typing makes, each proved by the function of its name.
ghost use Rattle.cc_typing_laws.specs.Laws as spec;

/// Among functions of fundamental types there is a choice for each call: one function, a tie, or none. So a law of all choices that the
/// language makes is said of something; and all such choices lead to one answer (ECMA-372, 14.1; ISO/IEC 14882:2003, 13.3).
pub fn some_choice()
    ensures some { spec.SomeChoice }
    ensures answer { spec.OneAnswer }
{}

/// What typing makes of a source by the choices of the language is a program: each term of it is well typed, each function with a
/// body has one, and breaks, continues, returns and labels stand as they must (ECMA-372, 10, 15 and 16).
pub fn typed_is_program()
    ensures typed { spec.TypedIsProgram }
    ensures answer { spec.AnswerIsProgram }
{}

/// The list of the classes of a source is refused as one of a program only for want of memory, or where it has 2^32 functions or more
/// (ECMA-372, 12.2, 21, 22 and 24).
pub fn classes_are_sound()
    ensures { spec.ClassesAreSound }
{}

/// Typing refuses by the kinds 50, 51, 52, 53, 55, 56, 62 and 63 alone, whatever choices are made.
pub fn refused_by_kinds()
    ensures { spec.RefusedByKinds }
{}
