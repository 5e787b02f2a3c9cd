//! What texts are read and made flat, and what others are refused for. A full adder of two half adders stands
//! in most, with one line changed.
use crate::reading::read_hier;
use crate::refusal::HierRefusal;
use blif_text::refusal::BlifRefusal;
use net_core::net::Net;
use semantics::which::Which;
use std::alloc::{AllocError, Global};
use std::test::Fail;

/// A full adder up to its first use of a half adder, which is line 4, and the rest of it.
const FULL_ADDER: &[u8] = b".model fa\n.inputs a b c\n.outputs s co\n";

const REST: &[u8] = b".subckt ha a=t b=c s=s c=v\n.names u v co\n1- 1\n-1 1\n.end\n";

/// A half adder but for its end.
const HALF_ADDER: &[u8] =
    b".model ha\n.inputs a b\n.outputs s c\n.names a b s\n10 1\n01 1\n.names a b c\n11 1\n";

/// The full adder with this line as its fourth, and this one as the last of the half adder.
fn text_with(alloc: Global, line: &[u8], last: &[u8]) -> Result<Vec<u8>, AllocError> {
    let mut text = Vec::from_slice(alloc, FULL_ADDER)?;
    text.extend_from_slice(line)?;
    text.extend_from_slice(REST)?;
    text.extend_from_slice(HALF_ADDER)?;
    text.extend_from_slice(last)?;
    Ok(text)
}

/// What the full adder is refused for, with these lines in it.
fn refusal(alloc: Global, line: &[u8], last: &[u8]) -> Result<HierRefusal, Fail> {
    let text = text_with(alloc, line, last)?;
    match read_hier(alloc, &text, 1 << 22) {
        Ok(_) => Err(Fail::new("the text is read")),
        Err(told) => Ok(told),
    }
}

#[test]
fn a_full_adder(rt: HostRuntime) -> Result<(), Fail> {
    let text = text_with(rt.alloc(), b".subckt ha a=a b=b s=t c=u\n", b".end\n")?;
    assert!(rt; read_hier(rt.alloc(), &text, 1 << 22).is_ok());
    Ok(())
}

#[test]
fn a_long_text(rt: HostRuntime) -> Result<(), Fail> {
    let Err(HierRefusal::Line(BlifRefusal::TextLong)) = read_hier(rt.alloc(), b".end", 3) else {
        return Err(Fail::new("another answer"));
    };
    Ok(())
}

#[test]
fn a_line_that_is_wrong(rt: HostRuntime) -> Result<(), Fail> {
    let told = refusal(rt.alloc(), b".subckt ha a=\n", b".end\n")?;
    let HierRefusal::Line(BlifRefusal::BadName { line }) = told else {
        return Err(Fail::new("another refusal"));
    };
    assert_eq!(rt; line, 4);
    Ok(())
}

#[test]
fn a_model_twice(rt: HostRuntime) -> Result<(), Fail> {
    let told = refusal(rt.alloc(), b"", b".end\n.model fa\n")?;
    let HierRefusal::SameModel(name) = told else {
        return Err(Fail::new("another refusal"));
    };
    assert_eq!(rt; name.bytes(), b"fa".as_slice());
    Ok(())
}

#[test]
fn a_model_that_is_not_there(rt: HostRuntime) -> Result<(), Fail> {
    let told = refusal(rt.alloc(), b".subckt hb a=a b=b s=t c=u\n", b".end\n")?;
    let HierRefusal::NoModel(name) = told else {
        return Err(Fail::new("another refusal"));
    };
    assert_eq!(rt; name.bytes(), b"hb".as_slice());
    Ok(())
}

#[test]
fn a_model_that_uses_itself(rt: HostRuntime) -> Result<(), Fail> {
    let told = refusal(
        rt.alloc(),
        b".subckt ha a=a b=b s=t c=u\n",
        b".subckt ha a=a b=b s=z\n.end\n",
    )?;
    let HierRefusal::Recursive(name) = told else {
        return Err(Fail::new("another refusal"));
    };
    assert_eq!(rt; name.bytes(), b"fa".as_slice());
    Ok(())
}

#[test]
fn a_port_twice(rt: HostRuntime) -> Result<(), Fail> {
    let told = refusal(rt.alloc(), b"", b".inputs s\n.end\n")?;
    let HierRefusal::Ports { model, name } = told else {
        return Err(Fail::new("another refusal"));
    };
    assert_eq!(rt; model.bytes(), b"ha".as_slice());
    assert_eq!(rt; name.bytes(), b"s".as_slice());
    Ok(())
}

#[test]
fn a_binding_of_no_port(rt: HostRuntime) -> Result<(), Fail> {
    let told = refusal(rt.alloc(), b".subckt ha a=a b=b s=t d=u\n", b".end\n")?;
    let HierRefusal::Formal { line, name } = told else {
        return Err(Fail::new("another refusal"));
    };
    assert_eq!(rt; line, 4);
    assert_eq!(rt; name.bytes(), b"d".as_slice());
    Ok(())
}

#[test]
fn an_input_that_is_not_bound(rt: HostRuntime) -> Result<(), Fail> {
    let told = refusal(rt.alloc(), b".subckt ha a=a s=t c=u\n", b".end\n")?;
    let HierRefusal::Unbound { line, name } = told else {
        return Err(Fail::new("another refusal"));
    };
    assert_eq!(rt; line, 4);
    assert_eq!(rt; name.bytes(), b"b".as_slice());
    Ok(())
}

#[test]
fn a_name_that_is_not_driven(rt: HostRuntime) -> Result<(), Fail> {
    let told = refusal(rt.alloc(), b".subckt ha a=a b=b s=t\n", b".end\n")?;
    let HierRefusal::Part { model, refusal } = told else {
        return Err(Fail::new("another refusal"));
    };
    let BlifRefusal::Undriven { name } = refusal else {
        return Err(Fail::new("another refusal of a model"));
    };
    assert_eq!(rt; model.bytes(), b"fa".as_slice());
    assert_eq!(rt; name.bytes(), b"u".as_slice());
    Ok(())
}

#[test]
fn a_name_of_a_flat_table(rt: HostRuntime) -> Result<(), Fail> {
    let told = refusal(
        rt.alloc(),
        b".subckt ha a=a b=b s=t c=u\n.names $u07\n",
        b".end\n",
    )?;
    let HierRefusal::Taken(name) = told else {
        return Err(Fail::new("another refusal"));
    };
    assert_eq!(rt; name.bytes(), b"$u07".as_slice());
    Ok(())
}

/// The flat net of a text.
fn flat(alloc: Global, text: &[u8]) -> Result<Net, HierRefusal> {
    let hier = read_hier(alloc, text, 1 << 22)?;
    hier.flatten(alloc)
}

/// The names of the tables, each with a space behind it.
fn table_names(alloc: Global, net: &Net) -> Result<Vec<u8>, AllocError> {
    let mut names = Vec::new(alloc);
    for t in 0..net.tables() {
        names.extend_from_slice(net.table(t).name().bytes())?;
        names.push(b' ')?;
    }
    Ok(names)
}

#[test]
fn a_full_adder_is_flat(rt: HostRuntime) -> Result<(), Fail> {
    let text = text_with(rt.alloc(), b".subckt ha a=a b=b s=t c=u\n", b".end\n")?;
    let Ok(net) = flat(rt.alloc(), &text) else {
        return Err(Fail::new("a refusal"));
    };
    let names = table_names(rt.alloc(), &net)?;
    assert_eq!(rt; names.as_slice(), b"$u0 $u1 t u $u4 $u5 s v co ".as_slice());
    Ok(())
}

/// Thirty models, each of which uses the one behind it twice, but for the last one, a buffer.
fn thirty_models(alloc: Global) -> Result<Vec<u8>, AllocError> {
    let mut text = Vec::new(alloc);
    for step in 0..29u8 {
        text.extend_from_slice(b".model ")?;
        text.push(b'a' + step)?;
        text.extend_from_slice(b"\n.inputs a\n.outputs c\n.subckt ")?;
        text.push(b'b' + step)?;
        text.extend_from_slice(b" a=a c=b\n.subckt ")?;
        text.push(b'b' + step)?;
        text.extend_from_slice(b" a=b c=c\n.end\n")?;
    }
    text.extend_from_slice(b".model ~\n.inputs a\n.outputs c\n.names a c\n1 1\n.end\n")?;
    Ok(text)
}

#[test]
fn models_that_double(rt: HostRuntime) -> Result<(), Fail> {
    let text = thirty_models(rt.alloc())?;
    let Err(HierRefusal::Flat(BlifRefusal::Limit { which })) = flat(rt.alloc(), &text) else {
        return Err(Fail::new("another answer"));
    };
    assert!(rt; which == Which::Tables);
    Ok(())
}
