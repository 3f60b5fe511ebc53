//! The frames.

/// The frames: a frame, what its packet is written as, and the debug form of that packet or of a fault. Those that
/// are written as they are read (`=`) come first, V1 to V13 of the program's vectors before all others; then those of
/// which that holds too (`*`), but that aren't read in pieces as well, since that takes the square of all their bytes;
/// then those that are written otherwise, shorter or stricter; then those that are refused, from `2000` on since the
/// body is cut short, with a remaining length that says so.
pub(super) const FRAMES: &str =
    r##"100E00044D5154540502003C00000163 = Connect(Connect { keep_alive: 60, client_id: "c", clean_start: true, properties: None }, None, None)
101B00044D51545405EE003C000001630000017700016D000175000170 = Connect(Connect { keep_alive: 60, client_id: "c", clean_start: true, properties: None }, Some(LastWill { topic: b"w", message: b"m", qos: AtLeastOnce, retain: true, properties: None }), Some(Login { username: "u", password: "p" }))
2006000003210002 = ConnAck(ConnAck { session_present: false, code: Success, properties: Some(ConnAckProperties { session_expiry_interval: None, receive_max: Some(2), max_qos: None, retain_available: None, max_packet_size: None, assigned_client_identifier: None, topic_alias_max: None, reason_string: None, user_properties: [], wildcard_subscription_available: None, subscription_identifiers_available: None, shared_subscription_available: None, server_keep_alive: None, response_information: None, server_reference: None, authentication_method: None, authentication_data: None }) })
320A0003612F620001006869 = Publish(Publish { dup: false, qos: AtLeastOnce, retain: false, topic: b"a/b", pkid: 1, payload: b"hi", properties: None })
40020001 = PubAck(PubAck { pkid: 1, reason: Success, properties: None })
700400079200 = PubComp(PubComp { pkid: 7, reason: PacketIdentifierNotFound, properties: None })
82090002000003612F6201 = Subscribe(Subscribe { pkid: 2, filters: [Filter { path: "a/b", qos: AtLeastOnce, nolocal: false, preserve_retain: false, retain_forward_rule: OnEverySubscribe }], properties: None })
900400020001 = SubAck(SubAck { pkid: 2, return_codes: [Success(AtLeastOnce)], properties: None })
A2080003000003612F62 = Unsubscribe(Unsubscribe { pkid: 3, filters: ["a/b"], properties: None })
B00400030000 = UnsubAck(UnsubAck { pkid: 3, reasons: [Success], properties: None })
C000 = PingReq(PingReq)
D000 = PingResp(PingResp)
F0021800 = Auth(Auth { code: Continue, properties: None })
50020007 = PubRec(PubRec { pkid: 7, reason: Success, properties: None })
62020007 = PubRel(PubRel { pkid: 7, reason: Success, properties: None })
E0028200 = Disconnect(Disconnect { reason_code: ProtocolError, properties: None })
700400049200 = PubComp(PubComp { pkid: 4, reason: PacketIdentifierNotFound, properties: None })
300B000161060B010B020B0378 = Publish(Publish { dup: false, qos: AtMostOnce, retain: false, topic: b"a", pkid: 0, payload: b"x", properties: Some(PublishProperties { payload_format_indicator: None, message_expiry_interval: None, topic_alias: None, response_topic: None, correlation_data: None, user_properties: [], subscription_identifiers: [1, 2, 3], content_type: None }) })
30040001FF00 = Publish(Publish { dup: false, qos: AtMostOnce, retain: false, topic: b"\xff", pkid: 0, payload: b"", properties: None })
32080003612F62000100 = Publish(Publish { dup: false, qos: AtLeastOnce, retain: false, topic: b"a/b", pkid: 1, payload: b"", properties: None })
32090003612F6200010068 = Publish(Publish { dup: false, qos: AtLeastOnce, retain: false, topic: b"a/b", pkid: 1, payload: b"h", properties: None })
308D0100016188012600016B008261616161616161616161616161616161616161616161616161616161616161616161616161616161616161616161616161616161616161616161616161616161616161616161616161616161616161616161616161616161616161616161616161616161616161616161616161616161616161616161616161616161616161616161 = Publish(Publish { dup: false, qos: AtMostOnce, retain: false, topic: b"a", pkid: 0, payload: b"", properties: Some(PublishProperties { payload_format_indicator: None, message_expiry_interval: None, topic_alias: None, response_topic: None, correlation_data: None, user_properties: [("k", "aaaaaaaaaaaaaaaaaaaaaaaaaaaaaaaaaaaaaaaaaaaaaaaaaaaaaaaaaaaaaaaaaaaaaaaaaaaaaaaaaaaaaaaaaaaaaaaaaaaaaaaaaaaaaaaaaaaaaaaaaaaaaaaaaa")], subscription_identifiers: [], content_type: None }) })
408D0100010088012600016B008261616161616161616161616161616161616161616161616161616161616161616161616161616161616161616161616161616161616161616161616161616161616161616161616161616161616161616161616161616161616161616161616161616161616161616161616161616161616161616161616161616161616161616161 = PubAck(PubAck { pkid: 1, reason: Success, properties: Some(AckProperties { reason_string: None, user_properties: [("k", "aaaaaaaaaaaaaaaaaaaaaaaaaaaaaaaaaaaaaaaaaaaaaaaaaaaaaaaaaaaaaaaaaaaaaaaaaaaaaaaaaaaaaaaaaaaaaaaaaaaaaaaaaaaaaaaaaaaaaaaaaaaaaaaaaa")] }) })
508D0100010088012600016B008261616161616161616161616161616161616161616161616161616161616161616161616161616161616161616161616161616161616161616161616161616161616161616161616161616161616161616161616161616161616161616161616161616161616161616161616161616161616161616161616161616161616161616161 = PubRec(PubRec { pkid: 1, reason: Success, properties: Some(AckProperties { reason_string: None, user_properties: [("k", "aaaaaaaaaaaaaaaaaaaaaaaaaaaaaaaaaaaaaaaaaaaaaaaaaaaaaaaaaaaaaaaaaaaaaaaaaaaaaaaaaaaaaaaaaaaaaaaaaaaaaaaaaaaaaaaaaaaaaaaaaaaaaaaaaa")] }) })
628D0100010088012600016B008261616161616161616161616161616161616161616161616161616161616161616161616161616161616161616161616161616161616161616161616161616161616161616161616161616161616161616161616161616161616161616161616161616161616161616161616161616161616161616161616161616161616161616161 = PubRel(PubRel { pkid: 1, reason: Success, properties: Some(AckProperties { reason_string: None, user_properties: [("k", "aaaaaaaaaaaaaaaaaaaaaaaaaaaaaaaaaaaaaaaaaaaaaaaaaaaaaaaaaaaaaaaaaaaaaaaaaaaaaaaaaaaaaaaaaaaaaaaaaaaaaaaaaaaaaaaaaaaaaaaaaaaaaaaaaa")] }) })
708D0100010088012600016B008261616161616161616161616161616161616161616161616161616161616161616161616161616161616161616161616161616161616161616161616161616161616161616161616161616161616161616161616161616161616161616161616161616161616161616161616161616161616161616161616161616161616161616161 = PubComp(PubComp { pkid: 1, reason: Success, properties: Some(AckProperties { reason_string: None, user_properties: [("k", "aaaaaaaaaaaaaaaaaaaaaaaaaaaaaaaaaaaaaaaaaaaaaaaaaaaaaaaaaaaaaaaaaaaaaaaaaaaaaaaaaaaaaaaaaaaaaaaaaaaaaaaaaaaaaaaaaaaaaaaaaaaaaaaaaa")] }) })
82070001000001232E * Subscribe(Subscribe { pkid: 1, filters: [Filter { path: "#", qos: ExactlyOnce, nolocal: true, preserve_retain: true, retain_forward_rule: Never }], properties: None })
900400020080 * SubAck(SubAck { pkid: 2, return_codes: [Unspecified], properties: None })
A203000300 * Unsubscribe(Unsubscribe { pkid: 3, filters: [], properties: None })
101100044D5154540542003C00000163000170 * Connect(Connect { keep_alive: 60, client_id: "c", clean_start: true, properties: None }, None, Some(Login { username: "", password: "p" }))
E022802011000004D21F000474657374260004746573740004746573741C000474657374 * Disconnect(Disconnect { reason_code: UnspecifiedError, properties: Some(DisconnectProperties { session_expiry_interval: Some(1234), reason_string: Some("test"), user_properties: [("test", "test")], server_reference: Some("test") }) })
F0080006150003616263 * Auth(Auth { code: Success, properties: Some(AuthProperties { method: Some("abc"), auth_data: None, reason: None, user_properties: [] }) })
2003010000 * ConnAck(ConnAck { session_present: true, code: Success, properties: None })
82990100018F0126000870726F70657274790082767676767676767676767676767676767676767676767676767676767676767676767676767676767676767676767676767676767676767676767676767676767676767676767676767676767676767676767676767676767676767676767676767676767676767676767676767676767676767676767676767676767676767676760003612F6201 * Subscribe(Subscribe { pkid: 1, filters: [Filter { path: "a/b", qos: AtLeastOnce, nolocal: false, preserve_retain: false, retain_forward_rule: OnEverySubscribe }], properties: Some(SubscribeProperties { id: None, user_properties: [("property", "vvvvvvvvvvvvvvvvvvvvvvvvvvvvvvvvvvvvvvvvvvvvvvvvvvvvvvvvvvvvvvvvvvvvvvvvvvvvvvvvvvvvvvvvvvvvvvvvvvvvvvvvvvvvvvvvvvvvvvvvvvvvvvvvvv")] }) })
90940100028F0126000870726F706572747900827676767676767676767676767676767676767676767676767676767676767676767676767676767676767676767676767676767676767676767676767676767676767676767676767676767676767676767676767676767676767676767676767676767676767676767676767676767676767676767676767676767676767676767687 * SubAck(SubAck { pkid: 2, return_codes: [NotAuthorized], properties: Some(AckProperties { reason_string: None, user_properties: [("property", "vvvvvvvvvvvvvvvvvvvvvvvvvvvvvvvvvvvvvvvvvvvvvvvvvvvvvvvvvvvvvvvvvvvvvvvvvvvvvvvvvvvvvvvvvvvvvvvvvvvvvvvvvvvvvvvvvvvvvvvvvvvvvvvvvv")] }) })
A2980100038F0126000870726F70657274790082767676767676767676767676767676767676767676767676767676767676767676767676767676767676767676767676767676767676767676767676767676767676767676767676767676767676767676767676767676767676767676767676767676767676767676767676767676767676767676767676767676767676767676760003612F62 * Unsubscribe(Unsubscribe { pkid: 3, filters: ["a/b"], properties: Some(UnsubscribeProperties { user_properties: [("property", "vvvvvvvvvvvvvvvvvvvvvvvvvvvvvvvvvvvvvvvvvvvvvvvvvvvvvvvvvvvvvvvvvvvvvvvvvvvvvvvvvvvvvvvvvvvvvvvvvvvvvvvvvvvvvvvvvvvvvvvvvvvvvvvvvv")] }) })
B0940100038F0126000870726F706572747900827676767676767676767676767676767676767676767676767676767676767676767676767676767676767676767676767676767676767676767676767676767676767676767676767676767676767676767676767676767676767676767676767676767676767676767676767676767676767676767676767676767676767676767600 * UnsubAck(UnsubAck { pkid: 3, reasons: [Success], properties: Some(AckProperties { reason_string: None, user_properties: [("property", "vvvvvvvvvvvvvvvvvvvvvvvvvvvvvvvvvvvvvvvvvvvvvvvvvvvvvvvvvvvvvvvvvvvvvvvvvvvvvvvvvvvvvvvvvvvvvvvvvvvvvvvvvvvvvvvvvvvvvvvvvvvvvvvvvv")] }) })
109E0100044D5154540502003C8F0126000870726F7065727479008230313233343536373839616263646566303132333435363738396162636465663031323334353637383961626364656630313233343536373839616263646566303132333435363738396162636465663031323334353637383961626364656630313233343536373839616263646566303132333435363738396162636465663031000163 * Connect(Connect { keep_alive: 60, client_id: "c", clean_start: true, properties: Some(ConnectProperties { session_expiry_interval: None, receive_maximum: None, max_packet_size: None, topic_alias_max: None, request_response_info: None, request_problem_info: None, user_properties: [("property", "0123456789abcdef0123456789abcdef0123456789abcdef0123456789abcdef0123456789abcdef0123456789abcdef0123456789abcdef0123456789abcdef01")], authentication_method: None, authentication_data: None }) }, None, None)
E09201008F0126000870726F7065727479008276767676767676767676767676767676767676767676767676767676767676767676767676767676767676767676767676767676767676767676767676767676767676767676767676767676767676767676767676767676767676767676767676767676767676767676767676767676767676767676767676767676767676767676 * Disconnect(Disconnect { reason_code: NormalDisconnection, properties: Some(DisconnectProperties { session_expiry_interval: None, reason_string: None, user_properties: [("property", "vvvvvvvvvvvvvvvvvvvvvvvvvvvvvvvvvvvvvvvvvvvvvvvvvvvvvvvvvvvvvvvvvvvvvvvvvvvvvvvvvvvvvvvvvvvvvvvvvvvvvvvvvvvvvvvvvvvvvvvvvvvvvvvvvv")], server_reference: None }) })
F09201188F0126000870726F7065727479008276767676767676767676767676767676767676767676767676767676767676767676767676767676767676767676767676767676767676767676767676767676767676767676767676767676767676767676767676767676767676767676767676767676767676767676767676767676767676767676767676767676767676767676 * Auth(Auth { code: Continue, properties: Some(AuthProperties { method: None, auth_data: None, reason: None, user_properties: [("property", "vvvvvvvvvvvvvvvvvvvvvvvvvvvvvvvvvvvvvvvvvvvvvvvvvvvvvvvvvvvvvvvvvvvvvvvvvvvvvvvvvvvvvvvvvvvvvvvvvvvvvvvvvvvvvvvvvvvvvvvvvvvvvvvvvv")] }) })
20930100008F0126000870726F7065727479008276767676767676767676767676767676767676767676767676767676767676767676767676767676767676767676767676767676767676767676767676767676767676767676767676767676767676767676767676767676767676767676767676767676767676767676767676767676767676767676767676767676767676767676 * ConnAck(ConnAck { session_present: false, code: Success, properties: Some(ConnAckProperties { session_expiry_interval: None, receive_max: None, max_qos: None, retain_available: None, max_packet_size: None, assigned_client_identifier: None, topic_alias_max: None, reason_string: None, user_properties: [("property", "vvvvvvvvvvvvvvvvvvvvvvvvvvvvvvvvvvvvvvvvvvvvvvvvvvvvvvvvvvvvvvvvvvvvvvvvvvvvvvvvvvvvvvvvvvvvvvvvvvvvvvvvvvvvvvvvvvvvvvvvvvvvvvvvvv")], wildcard_subscription_available: None, subscription_identifiers_available: None, shared_subscription_available: None, server_keep_alive: None, response_information: None, server_reference: None, authentication_method: None, authentication_data: None }) })
C001FF C000 PingReq(PingReq)
D001FF D000 PingResp(PingResp)
C100 C000 PingReq(PingReq)
F000 F0020000 Auth(Auth { code: Success, properties: None })
E00182 E0028200 Disconnect(Disconnect { reason_code: ProtocolError, properties: None })
E0810082 E0028200 Disconnect(Disconnect { reason_code: ProtocolError, properties: None })
E08000 E000 Disconnect(Disconnect { reason_code: NormalDisconnection, properties: None })
E0020000 E000 Disconnect(Disconnect { reason_code: NormalDisconnection, properties: None })
5003000210 500400021000 PubRec(PubRec { pkid: 2, reason: NoMatchingSubscribers, properties: None })
6203000392 620400039200 PubRel(PubRel { pkid: 3, reason: PacketIdentifierNotFound, properties: None })
30080001610401000101 3006000161020101 Publish(Publish { dup: false, qos: AtMostOnce, retain: false, topic: b"a", pkid: 0, payload: b"", properties: Some(PublishProperties { payload_format_indicator: Some(1), message_expiry_interval: None, topic_alias: None, response_topic: None, correlation_data: None, user_properties: [], subscription_identifiers: [], content_type: None }) })
30050001618000 300400016100 Publish(Publish { dup: false, qos: AtMostOnce, retain: false, topic: b"a", pkid: 0, payload: b"", properties: None })
000100 - InvalidPacketType(0)
0000 - InvalidPacketType(0)
1000 - PayloadRequired
3000 - PayloadRequired
2003000100 - InvalidConnectReturnCode(1)
3603000161 - InvalidQoS(3)
3206000161000000 - PacketIdZero
40050001000103 - InvalidPropertyType(3)
4005000100011F - MalformedPacket
300400016180 - MalformedPacket
30050001610978 - BoundaryCrossed(9)
5003000292 - InvalidConnectReturnCode(146)
6203000310 - InvalidConnectReturnCode(16)
700100 - MalformedPacket
8203000100 - EmptySubscription
8206000100000033 - InvalidRetainForwardRule(3)
8206000100000003 - InvalidQoS(3)
9003000200 - MalformedPacket
B00400030001 - InvalidSubscribeReasonCode(1)
E100 - MalformedPacket
E00101 - InvalidConnectReturnCode(1)
F00100 - MalformedPacket
3006000161022600 - MalformedPacket
3009000161040800027879 - BoundaryCrossed(2)
3009000161050B80808080 - MalformedRemainingLength
3006000161020B80 - MalformedPacket
300800016104030001FF - TopicNotUtf8
3006000161020400 - InvalidPropertyType(4)
300700016180808080 - MalformedRemainingLength
4005000100051F - BoundaryCrossed(5)
3009000161040200000001 - MalformedPacket
100E00044D5154540522003C00000163 - IncorrectPacketFormat
100E00044D5154540402003C00000163 - InvalidProtocolLevel(4)
100E00044D5149730502003C00000163 - InvalidProtocol
2006000103210002 - InvalidConnectReturnCode(1)
20050001022100 - MalformedPacket
2000 - PayloadRequired
200100 - MalformedPacket
20020000 - MalformedPacket
2003000003 - BoundaryCrossed(3)
200400000321 - BoundaryCrossed(3)
20050000032100 - BoundaryCrossed(3)
3200 - PayloadRequired
320100 - MalformedPacket
32020003 - BoundaryCrossed(3)
3203000361 - BoundaryCrossed(3)
32040003612F - BoundaryCrossed(3)
32050003612F62 - MalformedPacket
32060003612F6200 - MalformedPacket
32070003612F620001 - MalformedPacket
8200 - PayloadRequired
820100 - MalformedPacket
82020002 - MalformedPacket
8203000200 - EmptySubscription
820400020000 - MalformedPacket
82050002000003 - BoundaryCrossed(3)
8206000200000361 - BoundaryCrossed(3)
82070002000003612F - BoundaryCrossed(3)
82080002000003612F62 - MalformedPacket
"##;

/// Frames without a body: the first bytes from one to another, what their packet is written as, and its debug form or
/// that of a fault.
pub(super) const BARE: &[(u8, u8, &[u8], &str)] = &[
    (0x00, 0x0F, &[], "InvalidPacketType(0)"),
    (0x10, 0xBF, &[], "PayloadRequired"),
    (0xC0, 0xCF, &[0xC0, 0x00], "PingReq(PingReq)"),
    (0xD0, 0xDF, &[0xD0, 0x00], "PingResp(PingResp)"),
    (
        0xE0,
        0xE0,
        &[0xE0, 0x00],
        "Disconnect(Disconnect { reason_code: NormalDisconnection, properties: None })",
    ),
    (0xE1, 0xEF, &[], "MalformedPacket"),
    (
        0xF0,
        0xFF,
        &[0xF0, 0x02, 0x00, 0x00],
        "Auth(Auth { code: Success, properties: None })",
    ),
];
