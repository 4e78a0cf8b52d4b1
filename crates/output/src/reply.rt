// A reply telegram, apart from its body.
use std::fmt;
use telegram::address::Address;
use telegram::reply::Reply;

// An address by its fields, the number's and the manufacturer's highest digit first.
#[derive(Drop)]
pub struct AddressFields(pub Address);

impl fmt::Display for AddressFields {
    fn fmt<W: fmt::Write>(&self, f: &mut fmt::Formatter<W>) -> fmt::Result {
        let [n0, n1, n2, n3, m0, m1, version, medium] = self.0.bytes();
        write!(f, "no={n3:02X}{n2:02X}{n1:02X}{n0:02X} ")?;
        write!(
            f,
            "maker={m1:02X}{m0:02X} version={version:02X} medium={medium:02X}"
        )
    }
}

#[derive(Drop)]
pub struct ReplyLine {
    pub reply: Reply,
}

impl fmt::Display for ReplyLine {
    fn fmt<W: fmt::Write>(&self, f: &mut fmt::Formatter<W>) -> fmt::Result {
        let Reply {
            primary: _,
            address,
            access,
            status,
            signature,
        } = self.reply;
        write!(
            f,
            "kind=reply {} access={access:02X} status={status:02X} signature={signature:04X}",
            AddressFields(address)
        )
    }
}
