//! One small program for each exception that the machine makes: it is caught, and its class is printed.

use crate::endings::run_main;
use program_runs::runs::answers;
use std::alloc::{AllocError, Global};
use std::test::Fail;

/// A class in `java.lang`, and pieces of code that throw an exception of it.
type Row<'a> = (&'a str, &'a [&'a str]);

/// What the instructions throw (JVMS 6). Null comes before an index, an index before what is stored, and all
/// sizes are judged before an array is made.
const THROWN: [Row<'static>; 9] = [
    (
        "ArithmeticException",
        &[
            "iconst_1\niconst_0\nidiv",
            "iconst_1\niconst_0\nirem",
            "lconst_1\nlconst_0\nldiv",
            "lconst_1\nlconst_0\nlrem",
        ],
    ),
    (
        "NullPointerException",
        &[
            "aconst_null\ngetfield C x I",
            "aconst_null\niconst_0\nputfield C x I",
            "aconst_null\ninvokevirtual java/lang/Object hashCode ()I",
            "aconst_null\ninvokespecial C hide ()V",
            "aconst_null\ninvokeinterface p/Shape draw ()V",
            "aconst_null\narraylength",
            "aconst_null\nathrow",
            "aconst_null\nmonitorenter",
            "aconst_null\nmonitorexit",
            "aconst_null\niconst_m1\niaload",
            "aconst_null\niconst_0\nlconst_0\nlastore",
            "ldc \"a\"\naconst_null
            invokevirtual java/lang/String concat (Ljava/lang/String;)Ljava/lang/String;",
        ],
    ),
    (
        "ArrayIndexOutOfBoundsException",
        &[
            "iconst_2\nnewarray 10\niconst_m1\niaload",
            "iconst_2\nnewarray 10\niconst_2\niaload",
            "iconst_1\nnewarray 4\niconst_1\niconst_0\nbastore",
            "iconst_1\nnewarray 11\nldc -2147483648\nlconst_0\nlastore",
            "iconst_0\nanewarray C\niconst_0\nldc \"a\"\naastore",
        ],
    ),
    (
        "NegativeArraySizeException",
        &[
            "iconst_m1\nnewarray 10",
            "iconst_m1\nanewarray C",
            "iconst_0\niconst_m1\nmultianewarray [[I 2",
        ],
    ),
    (
        "ArrayStoreException",
        &[
            "iconst_1\nanewarray C\niconst_0\nldc \"a\"\naastore",
            "iconst_1\nanewarray p/Shape\niconst_0\nldc \"a\"\naastore",
            "iconst_1\nanewarray [I\niconst_0\niconst_0\nnewarray 11\naastore",
        ],
    ),
    (
        "ClassCastException",
        &[
            "ldc \"a\"\ncheckcast C",
            "iconst_0\nnewarray 10\ncheckcast [J",
        ],
    ),
    (
        "IllegalMonitorStateException",
        &[
            "ldc \"a\"\nmonitorexit",
            "ldc \"a\"\ndup\ndup\nmonitorenter\nmonitorexit\nmonitorexit",
        ],
    ),
    (
        "StringIndexOutOfBoundsException",
        &["ldc \"a\"\niconst_1\ninvokevirtual java/lang/String charAt (I)C"],
    ),
    (
        "ClassNotFoundException",
        &[
            "ldc \"p.Gone\"
            invokestatic java/lang/Class forName (Ljava/lang/String;)Ljava/lang/Class;",
        ],
    ),
];

/// Whether the code throws an exception of the class. Of the entries that cover it the first that catches the
/// exception counts (JVMS 3.10).
fn throws(alloc: Global, class: &str, code: &str) -> Result<bool, AllocError> {
    let code = format!(in alloc;
        "a: nop
{code}
b: return
c: invokevirtual java/lang/Object getClass ()Ljava/lang/Class;
  invokevirtual java/lang/Class getName ()Ljava/lang/String;
  astore_0
  getstatic java/lang/System out Ljava/io/PrintStream;
  aload_0
  invokevirtual java/io/PrintStream println (Ljava/lang/String;)V
  return
d: pop
  return
catch b d d any
catch a b d java/lang/Error
catch a b c java/lang/Exception
catch a b d any"
    )?;
    let left = run_main(alloc, "V", code.as_str())?;
    let text = format!(in alloc; "print \"java.lang.{class}\\n\"\nreturned void\n")?;
    Ok(answers(&left, 0, text.as_str()))
}

#[test]
fn exceptions_of_the_machine(rt: HostRuntime) -> Result<(), Fail> {
    for (class, codes) in THROWN {
        for code in codes {
            assert!(rt; throws(rt.alloc(), class, code)?, "{class} of {code}");
        }
    }
    Ok(())
}
