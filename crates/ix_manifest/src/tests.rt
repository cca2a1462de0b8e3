//! Manifests whose digests were computed by another program.

use crate::{Manifest, ManifestError, Removals, Segment, read};
use sha2::{Digest, Sha256};
use std::alloc::{AllocError, Global};
use std::test::Fail;

/// Two segments and removals, whose files are `one`, `two` and `three`.
const WORKED: &str = "ix archive 1
next 5
segment 3 1000 52431 7692c3ad3540bb803c020b3aee66cd8887123234ea0c6e7143c0add73ff431ed
segment 4 20 1187 3fc4ccfe745870e2c0d99f71f30ff0656c8dedd41cc1d7d3d376b0dbe685e2f3
removals 2 17 64 8b5b9db0c13db24256c829aa364aa90c6d2eba318b9232a4ab9313b954d3555f
end 24ae8d956ad82d028d870bf2f726f0a528e7afd7b456dc8d74f39874cf0bb050
";

/// No file.
const EMPTY: &str = "ix archive 1
next 0
end 667c4901aa9bc6a82939e6b28ee7aa1c6b1cf6fd3ba633831540e3d94d2e3a43
";

/// A segment of a file with these bytes.
fn segment(file: u64, documents: u32, bytes: u64, content: &str) -> Segment {
    let digest = Sha256::digest(content);
    Segment {
        file,
        documents,
        bytes,
        digest,
    }
}

/// The manifest that is worked out above.
fn worked(alloc: Global) -> Result<Manifest, AllocError> {
    let digest = Sha256::digest("three");
    let removals = Removals {
        file: 2,
        count: 17,
        bytes: 64,
        digest,
    };
    let segments = vec![in alloc; segment(3, 1000, 52431, "one"), segment(4, 20, 1187, "two")]?;
    Ok(Manifest {
        next: 5,
        segments,
        removals: Some(removals),
    })
}

/// The error of bytes that are no manifest.
fn fault(alloc: Global, bytes: &[u8]) -> Option<ManifestError> {
    read(alloc, bytes).err()
}

#[test]
fn a_manifest_is_written_and_read(rt: HostRuntime) -> Result<(), Fail> {
    let manifest = worked(rt.alloc())?;
    assert_eq!(rt; manifest.text(rt.alloc())?.as_str(), WORKED);
    assert!(rt; manifest.is_lawful());
    let again = read(rt.alloc(), WORKED.as_bytes())?;
    assert_eq!(rt; again.next, 5);
    assert_eq!(rt; again.segments.as_slice(), manifest.segments.as_slice());
    assert_eq!(rt; again.removals, manifest.removals);
    let empty = read(rt.alloc(), EMPTY.as_bytes())?;
    assert!(rt; empty.next == 0 && empty.segments.is_empty() && empty.removals.is_none());
    assert_eq!(rt; empty.text(rt.alloc())?.as_str(), EMPTY);
    Ok(())
}

#[test]
fn a_changed_byte_is_an_error_that_names_a_line(rt: HostRuntime) -> Result<(), Fail> {
    let bytes = WORKED.as_bytes();
    for place in 0..bytes.len() {
        let mut changed = bytes.to_vec(rt.alloc())?;
        for mask in [1u8, 0x20, 0x80] {
            changed[place] = bytes[place] ^ mask;
            let fault = fault(rt.alloc(), &changed);
            assert!(rt;
                matches!(fault, Some(ManifestError::Line(1..=7))),
                "{place}"
            );
        }
        let prefix = fault(rt.alloc(), &bytes[..place]);
        assert!(rt;
            matches!(prefix, Some(ManifestError::Line(1..=6))),
            "{place}"
        );
    }
    Ok(())
}

#[test]
fn an_error_names_the_line(rt: HostRuntime) -> Result<(), Fail> {
    for (text, line) in [
        ("", 1),
        ("ix archive 2\n", 1),
        ("ix archive 1\nnext 05\n", 2),
        ("ix archive 1\nnext x\n", 2),
        ("ix archive 1\nnext 5\nsegment 1 2 3 4\n", 3),
        ("ix archive 1\nnext 5\nremovals 1 2 3\n", 3),
        ("ix archive 1\nnext 5\nend 1\n", 3),
    ] {
        let fault = fault(rt.alloc(), text.as_bytes());
        assert_eq!(rt; fault, Some(ManifestError::Line(line)), "{text}");
    }
    let longer = format!(in rt.alloc(); "{WORKED}end\n")?;
    let fault = fault(rt.alloc(), longer.as_bytes());
    assert_eq!(rt; fault, Some(ManifestError::Line(7)));
    Ok(())
}

#[test]
fn an_unlawful_manifest_is_an_error(rt: HostRuntime) -> Result<(), Fail> {
    for (file, documents, line) in [(3, 20, 4), (2, 20, 5), (5, 20, 4), (4, 268435457, 4)] {
        let mut manifest = worked(rt.alloc())?;
        let Some(last) = manifest.segments.last_mut() else {
            continue;
        };
        last.file = file;
        last.documents = documents;
        let text = manifest.text(rt.alloc())?;
        let fault = fault(rt.alloc(), text.as_bytes());
        assert_eq!(rt;
            fault,
            Some(ManifestError::Line(line)),
            "{file} {documents}"
        );
        assert!(rt; !manifest.is_lawful());
    }
    Ok(())
}
