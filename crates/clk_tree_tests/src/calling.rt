//! Callers of the libraries, which their pages CALLING.md show: what follows from their contracts.

mod explain;
mod syntax;
mod tree;

use clk_packet::Fault;

#[test]
fn a_text_is_written_with_all_that_it_leaves_out(rt: HostRuntime) -> Result<(), Fault> {
    let text = b"s :: Sender(0); q :: Queue; d :: ToDevice(link); s -> q -> d;";
    let form = tree::canonical(rt.alloc(), text)?;
    let expected =
        "s :: Sender(0);\nq :: Queue(1000);\nd :: ToDevice(link);\ns [0] -> [0] q;\nq [0] -> [0] d;\n";
    assert_eq!(rt; form.as_slice(), expected.as_bytes());
    assert_eq!(rt;
        tree::canonical(rt.alloc(), &form)?.as_slice(),
        expected.as_bytes()
    );
    Ok(())
}

#[test]
fn a_name_that_is_not_declared_is_told(rt: HostRuntime) {
    let fault = syntax::fault_of_names(rt.alloc(), b"q :: Queue; q -> d;");
    assert_eq!(rt; fault, Some(Fault::UnknownName { offset: 17 }));
    assert_eq!(rt; syntax::fault_of_names(rt.alloc(), b"q :: Queue;"), None);
}

#[test]
fn a_fault_is_explained(rt: HostRuntime) {
    let told = explain::explained(rt.alloc(), b"q :: Queue;\nq -> d;");
    assert!(rt; told.is_some());
    if let Some((fault, lines)) = told {
        assert_eq!(rt; fault, Fault::UnknownName { offset: 17 });
        assert!(rt;
            lines
                .as_slice()
                .starts_with(b"2:6: no element has the name 'd'\n")
        );
    }
}
