//! Inputs with the results of their sites after the whole exchange: the number of arrivals and the status text of each
//! site, the lines that report the refused lines, and their number.

pub(crate) struct Row {
    pub(crate) inputs: &'static [&'static [u8]],
    pub(crate) arrivals: usize,
    pub(crate) status: &'static [u8],
    pub(crate) refused_text: &'static str,
    pub(crate) refused: u64,
}

/// An instruction, twice.
pub(crate) static ONE_SITE: Row = Row {
    inputs: &[
        b"{\"MsgNmId\":\"pacs.008\",\"MsgId\":\"M1\",\"CreDtTm\":\"2024-05-02T10:00:00Z\",\"InstgAgt\":\"BANKDEFF\",\"IntrBkSttlmDt\":\"2024-05-02\",\"SvcLvl\":\"SEPA\",\"LclInstrm\":\"INST\",\"EndToEndId\":\"E1\",\"TxId\":\"T1\",\"IntrBkSttlmAmt\":\"0.01\",\"Ccy\":\"EUR\",\"ChrgBr\":\"SLEV\",\"Dbtr\":\"Anna Weber\",\"DbtrAcct\":\"DE89370400440532013000\",\"DbtrAgt\":\"BANKDEFF\",\"CdtrAgt\":\"BANQFRPP\",\"Cdtr\":\"Bo Maes\",\"CdtrAcct\":\"BE68539007547034\"}\n{\"MsgNmId\":\"pacs.008\",\"MsgId\":\"M1\",\"CreDtTm\":\"2024-05-02T10:00:00Z\",\"InstgAgt\":\"BANKDEFF\",\"IntrBkSttlmDt\":\"2024-05-02\",\"SvcLvl\":\"SEPA\",\"LclInstrm\":\"INST\",\"EndToEndId\":\"E1\",\"TxId\":\"T1\",\"IntrBkSttlmAmt\":\"0.01\",\"Ccy\":\"EUR\",\"ChrgBr\":\"SLEV\",\"Dbtr\":\"Anna Weber\",\"DbtrAcct\":\"DE89370400440532013000\",\"DbtrAgt\":\"BANKDEFF\",\"CdtrAgt\":\"BANQFRPP\",\"Cdtr\":\"Bo Maes\",\"CdtrAcct\":\"BE68539007547034\"}\n",
    ],
    arrivals: 1,
    status: b"T|BANKDEFFXXX|T1|PENDING\n",
    refused_text: "",
    refused: 0,
};

/// An instruction and its confirmation at one site, another instruction at the other.
pub(crate) static TWO_SITES: Row = Row {
    inputs: &[
        b"{\"MsgNmId\":\"pacs.008\",\"MsgId\":\"M1\",\"CreDtTm\":\"2024-05-02T10:00:00Z\",\"InstgAgt\":\"BANKDEFF\",\"IntrBkSttlmDt\":\"2024-05-02\",\"SvcLvl\":\"SEPA\",\"LclInstrm\":\"INST\",\"EndToEndId\":\"E1\",\"TxId\":\"T1\",\"IntrBkSttlmAmt\":\"1.00\",\"Ccy\":\"EUR\",\"ChrgBr\":\"SLEV\",\"Dbtr\":\"Anna Weber\",\"DbtrAcct\":\"DE89370400440532013000\",\"DbtrAgt\":\"BANKDEFF\",\"CdtrAgt\":\"BANQFRPP\",\"Cdtr\":\"Bo Maes\",\"CdtrAcct\":\"BE68539007547034\"}\n{\"MsgNmId\":\"pacs.002\",\"MsgId\":\"C1\",\"CreDtTm\":\"2024-05-02T10:00:02Z\",\"InstgAgt\":\"BANQFRPP\",\"OrgnlMsgId\":\"M1\",\"OrgnlMsgNmId\":\"pacs.008\",\"OrgnlTxId\":\"T1\",\"TxSts\":\"ACCP\",\"DbtrAgt\":\"BANKDEFF\"}\n",
        b"{\"MsgNmId\":\"pacs.008\",\"MsgId\":\"M2\",\"CreDtTm\":\"2024-05-02T10:00:00Z\",\"InstgAgt\":\"BANKDEFF\",\"IntrBkSttlmDt\":\"2024-05-02\",\"SvcLvl\":\"SEPA\",\"LclInstrm\":\"INST\",\"EndToEndId\":\"E1\",\"TxId\":\"T2\",\"IntrBkSttlmAmt\":\"2.00\",\"Ccy\":\"EUR\",\"ChrgBr\":\"SLEV\",\"Dbtr\":\"Anna Weber\",\"DbtrAcct\":\"DE89370400440532013000\",\"DbtrAgt\":\"BANKDEFF\",\"CdtrAgt\":\"BANQFRPP\",\"Cdtr\":\"Bo Maes\",\"CdtrAcct\":\"BE68539007547034\"}\n",
    ],
    arrivals: 3,
    status: b"T|BANKDEFFXXX|T1|ACCEPTED\nT|BANKDEFFXXX|T2|PENDING\n",
    refused_text: "",
    refused: 0,
};

/// An instruction at one site, refused lines alone at the next, and no line at the last.
pub(crate) static WITH_REFUSED: Row = Row {
    inputs: &[
        b"{\"MsgNmId\":\"pacs.008\",\"MsgId\":\"M1\",\"CreDtTm\":\"2024-05-02T10:00:00Z\",\"InstgAgt\":\"BANKDEFF\",\"IntrBkSttlmDt\":\"2024-05-02\",\"SvcLvl\":\"SEPA\",\"LclInstrm\":\"INST\",\"EndToEndId\":\"E1\",\"TxId\":\"T1\",\"IntrBkSttlmAmt\":\"0.01\",\"Ccy\":\"EUR\",\"ChrgBr\":\"SLEV\",\"Dbtr\":\"Anna Weber\",\"DbtrAcct\":\"DE89370400440532013000\",\"DbtrAgt\":\"BANKDEFF\",\"CdtrAgt\":\"BANQFRPP\",\"Cdtr\":\"Bo Maes\",\"CdtrAcct\":\"BE68539007547034\"}\n",
        b"[]\n\n{}",
        b"",
    ],
    arrivals: 1,
    status: b"T|BANKDEFFXXX|T1|PENDING\n",
    refused_text: "file 2 line 1: 32\nfile 2 line 3: 33\n",
    refused: 2,
};
