use script::fault::Fault;
use script::set::{read_set, set_text};
use std::test::Fail;

// Sets that are read, and how they are printed.
#[test]
fn sets(rt: HostRuntime) -> Result<(), Fail> {
    let heap = rt.alloc();
    let sets = [
        ("-", "-"),
        ("1", "1"),
        ("127,2,1,2", "1,2,127"),
        ("00099", "99"),
        ("a,NS,aaaa,nsec3Param,spf", "1,2,28,51,99"),
    ];
    for (text, printed) in sets {
        let set = read_set(heap, text)?;
        assert_eq!(rt; set_text(heap, &set)?.as_str(), printed);
    }
    Ok(())
}

#[test]
fn not_sets(rt: HostRuntime) {
    let heap = rt.alloc();
    let texts = [
        "", "1,", ",1", "128", "65535", "65536", "x", "1-2", "000001", "1,-", "+1", "a b",
    ];
    for text in texts {
        let fault = read_set(heap, text).err();
        assert_eq!(rt; fault, Some(Fault::NotTypes), "{text}");
    }
}
