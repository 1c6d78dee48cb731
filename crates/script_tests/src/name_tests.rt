use names::name::Name;
use script::fault::Fault;
use script::name::{name_text, read_name};
use std::alloc::Global;
use std::process::Abort;
use std::test::Fail;

// Each text stands for the octets beside it.
fn stand_for(rt: &impl Abort, heap: Global, names: &[(&str, &[u8])]) -> Result<(), Fail> {
    for (text, octets) in names {
        assert_eq!(rt; read_name(heap, text)?.as_slice(), *octets);
    }
    Ok(())
}

#[test]
fn names(rt: HostRuntime) -> Result<(), Fail> {
    let names: [(&str, &[u8]); 4] = [
        (".", &[0]),
        ("a.b.", &[1, b'a', 1, b'b', 0]),
        ("A\\046b.", &[3, b'A', b'.', b'b', 0]),
        ("\\255\\000.", &[2, 255, 0, 0]),
    ];
    stand_for(&rt, rt.alloc(), &names)
}

#[test]
fn octets(rt: HostRuntime) -> Result<(), Fail> {
    let names: [(&str, &[u8]); 3] = [
        ("=", &[]),
        ("=016100", &[1, b'a', 0]),
        ("=fF0a", &[255, 10]),
    ];
    stand_for(&rt, rt.alloc(), &names)
}

#[test]
fn printed(rt: HostRuntime) -> Result<(), Fail> {
    let heap = rt.alloc();
    let names: [(&[u8], &str); 3] = [
        (&[0], "."),
        (&[1, b'A', 2, b'*', b'b', 0], "a.*b."),
        (&[4, b'.', b'\\', 0, 255, 0], "\\046\\092\\000\\255."),
    ];
    for (octets, text) in names {
        let name = Name::read(octets).expect(&rt, "a name");
        assert_eq!(rt; name_text(heap, &name)?.as_str(), text);
    }
    Ok(())
}

#[test]
fn not_names(rt: HostRuntime) {
    let heap = rt.alloc();
    let texts = [
        "", "a", "a.b", "..", ".a.", "a..b.", "\\25.", "\\256.", "\\2a5.", "a b.", "=0", "=0g",
        "=01 61",
    ];
    for text in texts {
        assert_eq!(rt;
            read_name(heap, text).err(),
            Some(Fault::NotAName),
            "{text}"
        );
    }
}

#[test]
fn long_labels(rt: HostRuntime) -> Result<(), Fail> {
    let heap = rt.alloc();
    let label = "0123456789abcdef0123456789abcdef0123456789abcdef0123456789abcde";
    assert_eq!(rt; label.len(), 63);
    let text = format!(in heap; "{label}.")?;
    assert_eq!(rt; read_name(heap, &text)?.len(), 65);
    let longer = format!(in heap; "f{label}.")?;
    assert_eq!(rt; read_name(heap, &longer).err(), Some(Fault::NotAName));
    Ok(())
}
