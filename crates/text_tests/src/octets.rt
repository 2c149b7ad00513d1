use std::alloc::AllocError;
use text::hexadecimal::{Hexadecimal, comes_back, hexadecimal_of, octets_of};

#[test]
fn octets(rt: HostRuntime) -> Result<(), AllocError> {
    for text in ["00097f80aff0ff", "00097F80AFF0FF", "00097f80AfF0fF"] {
        let octets = octets_of(rt.alloc(), text)?;
        assert_eq!(rt;
            octets.as_deref(),
            Some([0, 9, 0x7F, 0x80, 0xAF, 0xF0, 0xFF].as_slice()),
            "{}",
            text
        );
    }
    assert_eq!(rt; octets_of(rt.alloc(), "")?.as_deref(), Some([].as_slice()));
    Ok(())
}

#[test]
fn no_octets(rt: HostRuntime) -> Result<(), AllocError> {
    for text in [
        "0", "000", "0g", "g0", "0x", "0x00", "00 11", "-1", "00:1", "é",
    ] {
        assert_eq!(rt; octets_of(rt.alloc(), text)?, None, "{}", text);
    }
    Ok(())
}

#[test]
fn written(rt: HostRuntime) -> Result<(), AllocError> {
    let text = hexadecimal_of(rt.alloc(), &[0, 9, 0x7F, 0x80, 0xAF, 0xF0, 0xFF])?;
    assert_eq!(rt; text.as_str(), "00097f80aff0ff");
    let nothing = hexadecimal_of(rt.alloc(), &[])?;
    assert_eq!(rt; nothing.as_str(), "");
    let octets = [0xDE, 0xAD, 0xBE, 0xEF, 0x01, 0x23];
    let again = comes_back(rt.alloc(), &octets)?;
    assert_eq!(rt; again.as_deref(), Some(octets.as_slice()));
    Ok(())
}

#[test]
fn shown(rt: HostRuntime) -> Result<(), AllocError> {
    let octets = [0xA5; 33];
    let text = format!(in rt.alloc(); "<{}>", Hexadecimal(&octets))?;
    assert_eq!(rt;
        text.as_str(),
        "<a5a5a5a5a5a5a5a5a5a5a5a5a5a5a5a5a5a5a5a5a5a5a5a5a5a5a5a5a5a5a5a5a5>"
    );
    Ok(())
}
