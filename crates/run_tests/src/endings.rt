//! One small program for each way in which a run ends.

use program_runs::runs::{Outcome, answers, run, run_files};
use program_runs::texts::{class_file, files_of};
use std::alloc::{AllocError, Global};
use std::test::Fail;

/// The members of the class C beside `main`.
const MEMBERS: &str = "field x I
method ask ()I flags 265 none
method tell (LC;Ljava/lang/String;)V flags 265 none
method <init> ()V stack 1 locals 1
  aload_0
  invokespecial java/lang/Object <init> ()V
  return
end
method hide ()V flags 2 stack 0 locals 1
  return
end
method static make ()LC; stack 2 locals 0
  new C
  dup
  invokespecial C <init> ()V
  areturn
end
method static divide ()V stack 2 locals 0
  iconst_1
  iconst_0
  idiv
  pop
  return
end";

/// A class whose initialiser throws, an interface of which C lacks the method, and names that are kept for
/// what weaving makes.
const OTHERS: [&str; 3] = [
    "class p/Bad super java/lang/Object version 48
method static m ()V stack 0 locals 0
  return
end
method static <clinit> ()V stack 0 locals 0
  invokestatic C divide ()V
  return
end",
    "class p/Shape super java/lang/Object version 48 flags 1537
method draw ()V flags 1025 none",
    "class ajc$x super java/lang/Object version 48
method static ajc$m ()I stack 1 locals 0
  bipush -5
  ireturn
end",
];

/// Runs the class C whose `main` has this result and this code.
pub(crate) fn run_main(alloc: Global, returned: &str, code: &str) -> Result<Outcome, AllocError> {
    let class = format!(in alloc;
        "class C super java/lang/Object version 48 interface p/Shape
{MEMBERS}
method static main (){returned} stack 8 locals 2
{code}
end"
    )?;
    let mut classes = Vec::new(alloc);
    classes.push(class.as_str())?;
    for other in OTHERS {
        classes.push(other)?;
    }
    let files = files_of(alloc, classes.as_slice())?;
    run_files(alloc, &["run", "in", "C.main()", "1000"], files)
}

/// What `main` returns, its code, and the result as it is printed: a boolean is an int at run time, and the
/// objects of a class and the arrays of a type are numbered.
const RETURNED: [(&str, &str, &str); 12] = [
    ("V", "return", "void"),
    ("I", "invokestatic ajc$x ajc$m ()I\nireturn", "-5"),
    ("Z", "iconst_1\nireturn", "1"),
    ("C", "bipush 97\nireturn", "97"),
    ("J", "ldc2_w 5000000000\nlreturn", "5000000000L"),
    ("F", "ldc float:7fc00000\nfreturn", "float:7fc00000"),
    ("D", "dconst_1\ndreturn", "double:3ff0000000000000"),
    (
        "Ljava/lang/String;",
        "ldc \"\\\"\\u00e9\"\nareturn",
        "\"\\\"\\u00e9\"",
    ),
    ("LC;", "aconst_null\nareturn", "null"),
    (
        "LC;",
        "invokestatic C make ()LC;\npop\ninvokestatic C make ()LC;\nareturn",
        "C#2",
    ),
    (
        "[[J",
        "iconst_2\niconst_3\nmultianewarray [[J 2\nareturn",
        "long[][]#1",
    ),
    ("[LC;", "iconst_0\nanewarray C\nareturn", "C[]#1"),
];

fn returns(alloc: Global, row: (&str, &str, &str)) -> Result<bool, AllocError> {
    let left = run_main(alloc, row.0, row.1)?;
    let text = format!(in alloc; "returned {}\n", row.2)?;
    Ok(answers(&left, 0, text.as_str()))
}

/// The status, the code of a `main` without result, and what is printed.
const ENDED: [(u8, &str, &str); 22] = [
    (
        10,
        "new java/lang/Error\ndup\nldc \"no\"
    invokespecial java/lang/Error <init> (Ljava/lang/String;)V\nathrow",
        "uncaught java.lang.Error \"no\"\n",
    ),
    (
        10,
        "new java/lang/Error\ndup\ninvokespecial java/lang/Error <init> ()V\nathrow",
        "uncaught java.lang.Error null\n",
    ),
    (
        10,
        "ldc \"p.Gone\"
    invokestatic java/lang/Class forName (Ljava/lang/String;)Ljava/lang/Class;\npop\nreturn",
        "uncaught java.lang.ClassNotFoundException \"p.Gone\"\n",
    ),
    (
        11,
        "invokestatic p/Bad m ()V\nreturn",
        "init-failed p.Bad\n",
    ),
    (
        12,
        "bipush -3\ninvokestatic java/lang/System exit (I)V\nreturn",
        "exit -3\n",
    ),
    // Floating-point numbers are only moved.
    (
        13,
        "fconst_0\nfconst_1\nfadd\npop\nreturn",
        "unmodelled fadd\n",
    ),
    (13, "dconst_0\nd2i\npop\nreturn", "unmodelled d2i\n"),
    // A class or a member that isn't there, or is of another kind (JVMS 5.4.3, 6).
    (14, "new p/Gone\npop\nreturn", "unresolved p.Gone\n"),
    (
        14,
        "invokestatic p/Gone m ()V\nreturn",
        "unresolved p.Gone.m\n",
    ),
    (14, "invokestatic C gone ()V\nreturn", "unresolved C.gone\n"),
    (14, "getstatic C gone I\npop\nreturn", "unresolved C.gone\n"),
    (14, "getstatic C x I\npop\nreturn", "unresolved C.x\n"),
    (14, "invokestatic C hide ()V\nreturn", "unresolved C.hide\n"),
    (14, "new p/Shape\npop\nreturn", "unresolved p.Shape\n"),
    (
        14,
        "invokestatic C make ()LC;\ninvokeinterface p/Shape draw ()V\nreturn",
        "unresolved p.Shape.draw\n",
    ),
    // No verified code pops from nothing, loads an unset local, stores another type, or runs past its end.
    (15, "pop\nreturn", "broken\n"),
    (15, "iload_0\npop\nreturn", "broken\n"),
    (15, "lconst_0\nistore_0\nreturn", "broken\n"),
    (15, "nop", "broken\n"),
    (16, "here: goto here", "steps-spent\n"),
    (
        17,
        "invokestatic C ask ()I\npop\nreturn",
        "native C.ask()\nscript-ends\n",
    ),
    (
        17,
        "invokestatic C make ()LC;\nldc \"x\"\ninvokestatic C tell (LC;Ljava/lang/String;)V\nreturn",
        "native C.tell(C#1, \"x\")\nscript-ends\n",
    ),
];

fn ends(alloc: Global, row: (u8, &str, &str)) -> Result<bool, AllocError> {
    let left = run_main(alloc, "V", row.1)?;
    Ok(answers(&left, row.0, row.2))
}

#[test]
fn results(rt: HostRuntime) -> Result<(), Fail> {
    for row in RETURNED {
        assert!(rt; returns(rt.alloc(), row)?, "{}", row.2);
    }
    Ok(())
}

#[test]
fn endings(rt: HostRuntime) -> Result<(), Fail> {
    for row in ENDED {
        assert!(rt; ends(rt.alloc(), row)?, "{} {}", row.1, row.2);
    }
    Ok(())
}

/// Methods of one name, which give back what they are given, and native ones.
const ASKED: &str = "class A super java/lang/Object version 48
method static f (Z)I stack 1 locals 1
  iload_0
  ineg
  ireturn
end
method static f (I)I stack 1 locals 1
  iload_0
  ireturn
end
method static f (J)J stack 2 locals 2
  lload_0
  lreturn
end
method static f (Ljava/lang/String;)Ljava/lang/String; stack 1 locals 1
  aload_0
  areturn
end
method static f ([Ljava/lang/String;)I stack 1 locals 1
  aload_0
  arraylength
  ireturn
end
method i ()I flags 265 none
method s ()Ljava/lang/String; flags 265 none
method v ()V flags 265 none
method static d ()I stack 2 locals 0
  invokestatic A i ()I
  invokestatic A i ()I
  isub
  ireturn
end";

/// The status, an entry, a script and what is printed. The first method in the class's order that takes the
/// arguments is the entry, and each native call takes the next answer.
const ENTERED: [(u8, &str, &str, &str); 14] = [
    (0, "A.f(1)", "", "returned -1\n"),
    (0, "A.f(-2)", "", "returned -2\n"),
    (0, "A.f(5L)", "", "returned 5L\n"),
    (0, "A.f(\"a(b)\")", "", "returned \"a(b)\"\n"),
    (0, "A.f(null)", "", "returned null\n"),
    (0, "A.f([\"x\",\"y\"])", "", "returned 2\n"),
    (1, "A.f(1,1)", "", "refused: A.f(1,1) no-entry\n"),
    (0, "A.i()", "int -7\n", "native A.i()\nreturned -7\n"),
    (
        0,
        "A.s()",
        "text \"a b\"\n",
        "native A.s()\nreturned \"a b\"\n",
    ),
    (0, "A.s()", "null\n", "native A.s()\nreturned null\n"),
    (0, "A.v()", "void\nint 1\n", "native A.v()\nreturned void\n"),
    (
        0,
        "A.d()",
        "int 7\nint 2\n",
        "native A.i()\nnative A.i()\nreturned 5\n",
    ),
    (
        17,
        "A.d()",
        "int 7\nlong 2\n",
        "native A.i()\nnative A.i()\nscript-ends\n",
    ),
    (
        10,
        "A.d()",
        "throw java.lang.Error \"no\"\n",
        "native A.i()\nuncaught java.lang.Error \"no\"\n",
    ),
];

fn enters(alloc: Global, class: &[u8], row: (u8, &str, &str, &str)) -> Result<bool, AllocError> {
    let named = [("in/A.class", class), ("script", row.2.as_bytes())];
    let words = ["run", "in", row.1, "9", "script"];
    let left = run(alloc, &words, &named, &[], &[])?;
    Ok(answers(&left, row.0, row.3))
}

#[test]
fn entries_and_scripts(rt: HostRuntime) -> Result<(), Fail> {
    let class = class_file(rt.alloc(), ASKED)?;
    for row in ENTERED {
        assert!(rt;
            enters(rt.alloc(), class.as_slice(), row)?,
            "{} {}",
            row.1,
            row.3
        );
    }
    Ok(())
}
