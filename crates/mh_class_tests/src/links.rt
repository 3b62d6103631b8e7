use crate::linked_calls::{Attempt, Case, first_failing};
use crate::linked_files::NONE;
use std::test::Fail;

/// The first attempt, without a static argument.
const FIRST: Attempt = Attempt {
    argument: NONE,
    serial: 1,
};

static CASES: [Case; 19] = [
    Case {
        name: "a leaf",
        ty: "(II)I",
        lines: "let r leaf demo/Host.add:(II)I\nreturn r",
        arguments: &["i:1", "i:2"],
        wanted: "i:3 calls 0 keys 1",
    },
    Case {
        name: "a constant",
        ty: "()I",
        lines: "let r constant I I:7\nreturn r",
        arguments: &[],
        wanted: "i:7 calls keys 1",
    },
    Case {
        name: "an identity",
        ty: "(I)I",
        lines: "let r identity I\nreturn r",
        arguments: &["i:5"],
        wanted: "i:5 calls keys 1",
    },
    Case {
        name: "an exception thrown",
        ty: "(Ljava/lang/ArithmeticException;)I",
        lines: "let r throw I java/lang/ArithmeticException\nreturn r",
        arguments: &["x:java/lang/ArithmeticException"],
        wanted: "throws java/lang/ArithmeticException s: calls keys 1",
    },
    Case {
        name: "an argument bound",
        ty: "(I)I",
        lines: "let s leaf demo/Host.sub:(II)I\nlet r bind s 1 I:10\nreturn r",
        arguments: &["i:1"],
        wanted: "i:-9 calls 1 keys 2",
    },
    Case {
        name: "an argument dropped",
        ty: "(JII)I",
        lines: "let a leaf demo/Host.add:(II)I\nlet r drop a 0 J\nreturn r",
        arguments: &["j:9", "i:1", "i:2"],
        wanted: "i:3 calls 0 keys 2",
    },
    Case {
        name: "arguments permuted",
        ty: "(III)I",
        lines: "let s leaf demo/Host.sub:(II)I\nlet r permute s (III)I 2,0\nreturn r",
        arguments: &["i:1", "i:2", "i:3"],
        wanted: "i:2 calls 1 keys 2",
    },
    Case {
        name: "items spread",
        ty: "([I)I",
        lines: "let a leaf demo/Host.add:(II)I\nlet r spread a [I 2\nreturn r",
        arguments: &["a:I[i:1,i:2]"],
        wanted: "i:3 calls 0 keys 2",
    },
    Case {
        name: "arguments gathered",
        ty: "(II)[I",
        lines: "let a leaf demo/Host.arr:([I)[I\nlet r gather a [I 2\nreturn r",
        arguments: &["i:1", "i:2"],
        wanted: "a:I[i:1,i:2] calls 8 keys 2",
    },
    Case {
        name: "a use as the site's type",
        ty: "(I)J",
        lines: "let s leaf demo/Host.same:(I)I\nlet r astype s type\nreturn r",
        arguments: &["i:5"],
        wanted: "j:5 calls 4 keys 2",
    },
    Case {
        name: "a filter",
        ty: "(II)I",
        lines: "let s leaf demo/Host.sub:(II)I\nlet t leaf demo/Host.tick:(I)I\n\
            let r filter s 1 t\nreturn r",
        arguments: &["i:7", "i:7"],
        wanted: "i:7 calls 3 1 keys 2",
    },
    Case {
        name: "a filter of the result",
        ty: "(II)I",
        lines: "let s leaf demo/Host.sub:(II)I\nlet t leaf demo/Host.tick:(I)I\n\
            let r filterret s t\nreturn r",
        arguments: &["i:7", "i:7"],
        wanted: "i:1 calls 1 3 keys 2",
    },
    Case {
        name: "a combiner",
        ty: "(I)I",
        lines: "let s leaf demo/Host.sub:(II)I\nlet t leaf demo/Host.tick:(I)I\n\
            let r fold s 0 t\nreturn r",
        arguments: &["i:5"],
        wanted: "i:-5 calls 3 1 keys 2",
    },
    Case {
        name: "a filter without a result",
        ty: "(II)I",
        lines: "let a leaf demo/Host.add:(II)I\nlet n leaf demo/Host.nothing:()V\n\
            let r collect a 2 n\nreturn r",
        arguments: &["i:1", "i:2"],
        wanted: "i:3 calls 5 0 keys 2",
    },
    Case {
        name: "a test",
        ty: "(II)I",
        lines: "let c leaf demo/Host.less:(II)Z\nlet a leaf demo/Host.add:(II)I\n\
            let s leaf demo/Host.sub:(II)I\nlet r guard c a s\nreturn r",
        arguments: &["i:2", "i:1"],
        wanted: "i:1 calls 6 1 keys 1",
    },
    Case {
        name: "an exception caught",
        ty: "(II)I",
        lines: "let d leaf demo/Host.div:(II)I\n\
            let h leaf demo/Host.saw:(Ljava/lang/RuntimeException;I)I\n\
            let r catch d java/lang/ArithmeticException h\nreturn r",
        arguments: &["i:1", "i:0"],
        wanted: "i:1 calls 2 7 keys 1",
    },
    Case {
        name: "a rule of a combinator",
        ty: "(I)I",
        lines: "let a leaf demo/Host.add:(II)I\nlet r permute a (I)I 0\nreturn r",
        arguments: &[],
        wanted: "error java/lang/BootstrapMethodError s: \
            cause java/lang/IllegalArgumentException s:permute",
    },
    Case {
        name: "a handle of another type returned",
        ty: "(I)I",
        lines: "let a leaf demo/Host.add:(II)I\nreturn a",
        arguments: &[],
        wanted: "error java/lang/BootstrapMethodError s: \
            cause java/lang/invoke/WrongMethodTypeException s:have\\s(II)I\\swant\\s(I)I",
    },
    Case {
        name: "no such leaf",
        ty: "()V",
        lines: "let r leaf demo/Host.add:()V\nreturn r",
        arguments: &[],
        wanted: "error java/lang/NoSuchMethodError s:demo/Host.add:()V",
    },
];

#[test]
fn forms_have_their_keys_and_no_type_stays_held(rt: HostRuntime) -> Result<(), Fail> {
    if let Some(differs) = first_failing(&rt, rt.alloc(), FIRST, &CASES)? {
        return Err(differs.told());
    }
    Ok(())
}
