use script::fault::Fault;
use script::line::{Line, read_line};

#[test]
fn lines(rt: HostRuntime) {
    let heap = rt.alloc();
    for text in ["", "   ", "# name", "  #"] {
        assert!(rt;
            matches!(read_line(heap, text), Ok(Line::Nothing)),
            "{text}"
        );
    }
    for text in ["list", "  list  ", "list # all of them", "list#"] {
        assert!(rt; matches!(read_line(heap, text), Ok(Line::List)), "{text}");
    }
    for text in ["name . 1", "name   a.b.   A,NS # more", "name = -"] {
        assert!(rt;
            matches!(read_line(heap, text), Ok(Line::Name(_, _))),
            "{text}"
        );
    }
}

#[test]
fn bad_lines(rt: HostRuntime) {
    let heap = rt.alloc();
    let lines = [
        ("lists", Fault::NotACommand),
        ("LIST", Fault::NotACommand),
        ("names a. 1", Fault::NotACommand),
        ("a.", Fault::NotACommand),
        ("\tlist", Fault::NotACommand),
        ("0", Fault::NotACommand),
        ("name", Fault::TooFewWords),
        ("name a.", Fault::TooFewWords),
        ("name a. # 1", Fault::TooFewWords),
        ("list a.", Fault::TooManyWords),
        ("name a. 1 2", Fault::TooManyWords),
        ("name a b. 1", Fault::TooManyWords),
        ("name a 1", Fault::NotAName),
        ("name a..b. 1", Fault::NotAName),
        ("name =0 x", Fault::NotAName),
        ("name a. x", Fault::NotTypes),
        ("name a. 128", Fault::NotTypes),
        ("name a. 1,,2", Fault::NotTypes),
    ];
    for (text, fault) in lines {
        assert_eq!(rt; read_line(heap, text).err(), Some(fault), "{text}");
    }
}
