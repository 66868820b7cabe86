use aj_names::ByteString;

/// An aspect of the form that is built, with one before advice at the calls of one method, which
/// prints one line:
/// `aspect NAME { before(): call(void CLASS.METHOD()) { System.out.println("TEXT"); } }`.
#[derive(Debug, Drop)]
pub struct FirstAspect {
    pub name: ByteString,
    /// The class and the name of the method whose calls are advised.
    pub class: ByteString,
    pub method: ByteString,
    /// The text that is printed, in ASCII.
    pub text: ByteString,
}
