//! What is asked in turn, and the replies, by `tests/model/disked.py`.
use lab_tests_rows::Exchange;

/// All of it is asked of aqua.
pub(crate) static DAY: [Exchange; 15] = [
    Exchange {
        seconds: 100,
        first: 10008,
        request: b"\
        POST /labs/aqua/entries HTTP/1.1\r\nHost: d\r\nAuthorization: LabSession \
        00000000000003f800000000000003f900000000000003fa00000000000003fb\r\nContent-Length: 51\r\n\
        \r\n{\"record\":1,\"key\":\"note\",\"value\":\"clear\",\"unit\":\"\"}",
        reply: b"\
        HTTP/1.1 200 OK\r\nDate: Thu, 01 Jan 1970 00:01:40 GMT\r\nContent-Type: \
        application/json\r\nContent-Length: 109\r\nConnection: close\r\n\r\n\
        {\"digest\":\"1dc22e7f178ac8e501d09029f5ced23212534d4fe8d575cee97f0024491595ed\",\"record\"\
        :1,\"rows\":2,\"version\":1}",
    },
    Exchange {
        seconds: 100,
        first: 10016,
        request: b"\
        POST /labs/aqua/signatures HTTP/1.1\r\nHost: d\r\nAuthorization: LabSession \
        00000000000003f800000000000003f900000000000003fa00000000000003fb\r\nContent-Length: 152\r\n\
        \r\n{\"record\":1,\"version\":1,\"digest\":\"1dc22e7f178ac8e501d09029f5ced23212534d4fe8d575\
        cee97f0024491595ed\",\"meaning\":\"authorship\",\"password\":\"correct horse 1\"}",
        reply: b"\
        HTTP/1.1 200 OK\r\nDate: Thu, 01 Jan 1970 00:01:40 GMT\r\nContent-Type: \
        application/json\r\nContent-Length: 241\r\nConnection: close\r\n\r\n\
        {\"digest\":\"1dc22e7f178ac8e501d09029f5ced23212534d4fe8d575cee97f0024491595ed\",\"meaning\
        \":\"authorship\",\"moment\":\"1970-01-01T00:01:40Z\",\"name\":\"Ann \
        Ames\",\"seal\":\"9aee9042f322ce1c65ed1a634cc1d09c679a177db39c02a1ff0d09568dd68e26\",\"stat\
        e\":\"signed\"}",
    },
    Exchange {
        seconds: 100,
        first: 10024,
        request: b"\
        POST /labs/aqua/signatures HTTP/1.1\r\nHost: d\r\nAuthorization: LabSession \
        0000000000000400000000000000040100000000000004020000000000000403\r\nContent-Length: 148\r\n\
        \r\n{\"record\":2,\"version\":1,\"digest\":\"a9da49c57af0e505c446524707d6931e1975f08b618992\
        9e5dac8d1acb665181\",\"meaning\":\"review\",\"password\":\"correct horse 2\"}",
        reply: b"\
        HTTP/1.1 200 OK\r\nDate: Thu, 01 Jan 1970 00:01:40 GMT\r\nContent-Type: \
        application/json\r\nContent-Length: 239\r\nConnection: close\r\n\r\n\
        {\"digest\":\"a9da49c57af0e505c446524707d6931e1975f08b6189929e5dac8d1acb665181\",\"meaning\
        \":\"review\",\"moment\":\"1970-01-01T00:01:40Z\",\"name\":\"Bob \
        Bell\",\"seal\":\"ce06be338734c5f8a5ce817fef891c72b5bd0a362513d3d38dc1805935a5551e\",\"stat\
        e\":\"released\"}",
    },
    Exchange {
        seconds: 100,
        first: 10032,
        request: b"\
        POST /labs/aqua/amendments HTTP/1.1\r\nHost: d\r\nAuthorization: LabSession \
        00000000000003f800000000000003f900000000000003fa00000000000003fb\r\nContent-Length: 92\r\n\
        \r\n{\"record\":3,\"reason\":\"misread scale\",\"altered\":[{\"key\":\"lead\",\"value\":\"7\
        .4\",\"unit\":\"mg/L\"}]}",
        reply: b"\
        HTTP/1.1 200 OK\r\nDate: Thu, 01 Jan 1970 00:01:40 GMT\r\nContent-Type: \
        application/json\r\nContent-Length: 100\r\nConnection: close\r\n\r\n\
        {\"digest\":\"15d7b996ea686cb4a9d00991333689ad9088548c43a3a1ebbe13687eb2560f82\",\"record\"\
        :3,\"version\":2}",
    },
    Exchange {
        seconds: 100,
        first: 10040,
        request: b"\
        POST /labs/aqua/issue HTTP/1.1\r\nHost: d\r\nAuthorization: LabSession \
        00000000000003f800000000000003f900000000000003fa00000000000003fb\r\nContent-Length: 14\r\n\
        \r\n{\"code\":\"dan\"}",
        reply: b"\
        HTTP/1.1 200 OK\r\nDate: Thu, 01 Jan 1970 00:01:40 GMT\r\nContent-Type: \
        application/json\r\nContent-Length: 43\r\nConnection: close\r\n\r\n\
        {\"half\":\"00000000000027380000000000002739\"}",
    },
    Exchange {
        seconds: 100,
        first: 10048,
        request: b"\
        POST /labs/aqua/confirm HTTP/1.1\r\nHost: d\r\nAuthorization: LabSession \
        0000000000000400000000000000040100000000000004020000000000000403\r\nContent-Length: 14\r\n\
        \r\n{\"code\":\"eve\"}",
        reply: b"\
        HTTP/1.1 200 OK\r\nDate: Thu, 01 Jan 1970 00:01:40 GMT\r\nContent-Type: \
        application/json\r\nContent-Length: 43\r\nConnection: close\r\n\r\n\
        {\"half\":\"00000000000027400000000000002741\"}",
    },
    Exchange {
        seconds: 100,
        first: 10056,
        request: b"\
        GET /labs/aqua/copy?from=1&to=100 HTTP/1.1\r\nHost: d\r\nAuthorization: LabSession \
        00000000000003f800000000000003f900000000000003fa00000000000003fb\r\n\r\n",
        reply: b"\
        HTTP/1.1 200 OK\r\nDate: Thu, 01 Jan 1970 00:01:40 GMT\r\nContent-Type: text/csv\r\n\
        Content-Length: 2030\r\nConnection: close\r\n\r\n\
        kind,lab,record,version,key,value,unit,person,name,moment,reason,digest,seal\ncopy,aqua,1,1\
        00,2,,,ann,Aqua Lab,1970-01-01T00:01:40Z,,,\nrecord,aqua,1,1,water,S1,,,,,,,\nversion,aqua,\
        1,1,2,signed,,ann,,1970-01-01T00:00:50Z,,1dc22e7f178ac8e501d09029f5ced23212534d4fe8d575cee9\
        7f0024491595ed,\nentry,aqua,1,1,lead,7.50,mg/L,ann,,1970-01-01T00:00:50Z,,,\nentry,aqua,1,1\
        ,note,clear,,ann,,1970-01-01T00:01:40Z,,,\nsignature,aqua,1,1,,authorship,,ann,Ann \
        Ames,1970-01-01T00:01:40Z,,1dc22e7f178ac8e501d09029f5ced23212534d4fe8d575cee97f0024491595ed\
        ,9aee9042f322ce1c65ed1a634cc1d09c679a177db39c02a1ff0d09568dd68e26\nrecord,aqua,2,1,water,S2\
        ,,,,,,,\nversion,aqua,2,1,2,released,,ann,,1970-01-01T00:00:50Z,,a9da49c57af0e505c446524707\
        d6931e1975f08b6189929e5dac8d1acb665181,\nentry,aqua,2,1,lead,7.75,mg/L,ann,,1970-01-01T00:0\
        0:50Z,,,\nsignature,aqua,2,1,,authorship,,ann,Ann \
        Ames,1970-01-01T00:01:00Z,,a9da49c57af0e505c446524707d6931e1975f08b6189929e5dac8d1acb665181\
        ,1403fd2d6c4f4a55ee0ee6fe5879fd3995f7aa951d76d10becc8f893c1a827bb\nsignature,aqua,2,1,,revi\
        ew,,bob,Bob Bell,1970-01-01T00:01:40Z,,a9da49c57af0e505c446524707d6931e1975f08b6189929e5dac\
        8d1acb665181,ce06be338734c5f8a5ce817fef891c72b5bd0a362513d3d38dc1805935a5551e\nrecord,aqua,\
        3,1,water,S3,,,,,,,\nversion,aqua,3,1,2,released,,ann,,1970-01-01T00:00:50Z,,f2b30314bec98f\
        fc7bc290dbb4fe7c6f6f339fe5bb942a42c3697243b5dae438,\nentry,aqua,3,1,lead,8.00,mg/L,ann,,197\
        0-01-01T00:00:50Z,,,\nsignature,aqua,3,1,,authorship,,ann,Ann \
        Ames,1970-01-01T00:01:00Z,,f2b30314bec98ffc7bc290dbb4fe7c6f6f339fe5bb942a42c3697243b5dae438\
        ,c958842405e4dedad83291e521af7dc1ec5c69e79f2137d1a30082be372a6ec3\nsignature,aqua,3,1,,revi\
        ew,,bob,Bob Bell,1970-01-01T00:01:10Z,,f2b30314bec98ffc7bc290dbb4fe7c6f6f339fe5bb942a42c369\
        7243b5dae438,701a4e814a22733d036a2f159ebd38629c7d16b56dcfc1d8ba96b3336d233323\nversion,aqua\
        ,3,2,2,open,,ann,,1970-01-01T00:01:40Z,misread \
        scale,15d7b996ea686cb4a9d00991333689ad9088548c43a3a1ebbe13687eb2560f82,\nentry,aqua,3,2,lea\
        d,7.4,mg/L,ann,,1970-01-01T00:01:40Z,misread scale,,\nend,aqua,3,4,5,5,,,,,,,\n",
    },
    Exchange {
        seconds: 100,
        first: 10064,
        request: b"\
        POST /labs/aqua/open HTTP/1.1\r\nHost: d\r\nContent-Length: 43\r\n\r\n\
        {\"code\":\"bob\",\"password\":\"correct horse 2\"}",
        reply: b"\
        HTTP/1.1 200 OK\r\nDate: Thu, 01 Jan 1970 00:01:40 GMT\r\nContent-Type: \
        application/json\r\nContent-Length: 100\r\nConnection: close\r\n\r\n\
        {\"due\":false,\"session\":3,\"token\":\"00000000000027500000000000002751000000000000275200\
        00000000002753\"}",
    },
    Exchange {
        seconds: 100,
        first: 10072,
        request: b"\
        GET /labs/aqua HTTP/1.1\r\nHost: d\r\nAuthorization: LabSession \
        00000000000003f800000000000003f900000000000003fa00000000000003fb\r\n\r\n",
        reply: b"\
        HTTP/1.1 200 OK\r\nDate: Thu, 01 Jan 1970 00:01:40 GMT\r\nContent-Type: \
        application/json\r\nContent-Length: 32\r\nConnection: close\r\n\r\n\
        {\"lab\":\"aqua\",\"name\":\"Aqua Lab\"}",
    },
    Exchange {
        seconds: 100,
        first: 10080,
        request: b"\
        GET /labs/aqua/persons HTTP/1.1\r\nHost: d\r\nAuthorization: LabSession \
        00000000000003f800000000000003f900000000000003fa00000000000003fb\r\n\r\n",
        reply: b"\
        HTTP/1.1 200 OK\r\nDate: Thu, 01 Jan 1970 00:01:40 GMT\r\nContent-Type: \
        application/json\r\nContent-Length: 480\r\nConnection: close\r\n\r\n\
        {\"persons\":[{\"code\":\"ann\",\"locked\":false,\"name\":\"Ann \
        Ames\",\"retired\":false,\"roles\":[\"analyst\",\"manager\",\"administrator\"]},{\"code\":\
        \"bob\",\"locked\":false,\"name\":\"Bob Bell\",\"retired\":false,\"roles\":[\"reviewer\",\"\
        administrator\"]},{\"code\":\"cid\",\"locked\":false,\"name\":\"Cid \
        Cole\",\"retired\":false,\"roles\":[\"administrator\"]},{\"code\":\"dan\",\"locked\":false,\
        \"name\":\"Dan Day\",\"retired\":false,\"roles\":[\"analyst\"]},{\"code\":\"eve\",\"locked\
        \":false,\"name\":\"Eve Ems\",\"retired\":false,\"roles\":[\"analyst\"]}]}",
    },
    Exchange {
        seconds: 100,
        first: 10088,
        request: b"\
        GET /labs/aqua/forms/water/1 HTTP/1.1\r\nHost: d\r\nAuthorization: LabSession \
        00000000000003f800000000000003f900000000000003fa00000000000003fb\r\n\r\n",
        reply: b"\
        HTTP/1.1 200 OK\r\nDate: Thu, 01 Jan 1970 00:01:40 GMT\r\nContent-Type: \
        application/json\r\nContent-Length: 325\r\nConnection: close\r\n\r\n\
        {\"approval\":false,\"fields\":[{\"decimals\":2,\"key\":\"lead\",\"kind\":\"number\",\"labe\
        l\":\"Lead\",\"min\":\"0\",\"required\":true,\"unit\":\"mg/L\"},{\"key\":\"note\",\"kind\":\
        \"text\",\"label\":\"Note\",\"required\":false,\"size\":200},{\"choices\":[\"none\",\"pale \
        blue\"],\"key\":\"colour\",\"kind\":\"choice\",\"label\":\"Colour\",\"required\":false}],\"\
        form\":\"water\",\"version\":1}",
    },
    Exchange {
        seconds: 100,
        first: 10096,
        request: b"\
        GET /labs/aqua/records/1 HTTP/1.1\r\nHost: d\r\nAuthorization: LabSession \
        00000000000003f800000000000003f900000000000003fa00000000000003fb\r\n\r\n",
        reply: b"\
        HTTP/1.1 200 OK\r\nDate: Thu, 01 Jan 1970 00:01:40 GMT\r\nContent-Type: \
        application/json\r\nContent-Length: 190\r\nConnection: close\r\n\r\n\
        {\"current\":1,\"form\":\"water\",\"form_version\":1,\"record\":1,\"sample\":\"S1\",\"versi\
        ons\":[{\"digest\":\"1dc22e7f178ac8e501d09029f5ced23212534d4fe8d575cee97f0024491595ed\",\"s\
        tate\":\"signed\",\"version\":1}]}",
    },
    Exchange {
        seconds: 100,
        first: 10104,
        request: b"\
        GET /labs/aqua/records/3/versions/1 HTTP/1.1\r\nHost: d\r\nAuthorization: LabSession \
        00000000000003f800000000000003f900000000000003fa00000000000003fb\r\n\r\n",
        reply: b"\
        HTTP/1.1 200 OK\r\nDate: Thu, 01 Jan 1970 00:01:40 GMT\r\nContent-Type: \
        application/json\r\nContent-Length: 801\r\nConnection: close\r\n\r\n\
        {\"altered\":[\"lead\"],\"approval\":false,\"digest\":\"f2b30314bec98ffc7bc290dbb4fe7c6f6f3\
        39fe5bb942a42c3697243b5dae438\",\"form\":\"water\",\"form_version\":1,\"format\":2,\"moment\
        \":\"1970-01-01T00:00:50Z\",\"opener\":\"ann\",\"reason\":\"\",\"record\":3,\"rows\":[{\"ke\
        y\":\"lead\",\"moment\":\"1970-01-01T00:00:50Z\",\"person\":\"ann\",\"reason\":\"\",\"unit\
        \":\"mg/L\",\"value\":\"8.00\"}],\"sample\":\"S3\",\"signatures\":[{\"meaning\":\"authorshi\
        p\",\"moment\":\"1970-01-01T00:01:00Z\",\"name\":\"Ann \
        Ames\",\"person\":\"ann\",\"reason\":\"\",\"seal\":\"c958842405e4dedad83291e521af7dc1ec5c69\
        e79f2137d1a30082be372a6ec3\"},{\"meaning\":\"review\",\"moment\":\"1970-01-01T00:01:10Z\",\
        \"name\":\"Bob Bell\",\"person\":\"bob\",\"reason\":\"\",\"seal\":\"701a4e814a22733d036a2f1\
        59ebd38629c7d16b56dcfc1d8ba96b3336d233323\"}],\"state\":\"released\",\"values\":[{\"key\":\
        \"lead\",\"unit\":\"mg/L\",\"value\":\"8.00\"}],\"version\":1}",
    },
    Exchange {
        seconds: 100,
        first: 10112,
        request: b"\
        GET /labs/aqua/records?from=1&to=9 HTTP/1.1\r\nHost: d\r\nAuthorization: LabSession \
        00000000000003f800000000000003f900000000000003fa00000000000003fb\r\n\r\n",
        reply: b"\
        HTTP/1.1 200 OK\r\nDate: Thu, 01 Jan 1970 00:01:40 GMT\r\nContent-Type: \
        application/json\r\nContent-Length: 226\r\nConnection: close\r\n\r\n\
        {\"records\":[{\"current\":1,\"form\":\"water\",\"record\":1,\"sample\":\"S1\",\"state\":\"\
        signed\"},{\"current\":1,\"form\":\"water\",\"record\":2,\"sample\":\"S2\",\"state\":\"rele\
        ased\"},{\"current\":2,\"form\":\"water\",\"record\":3,\"sample\":\"S3\",\"state\":\"open\"\
        }]}",
    },
    Exchange {
        seconds: 100,
        first: 10120,
        request: b"\
        GET /labs/aqua/trail?from=1&to=40 HTTP/1.1\r\nHost: d\r\nAuthorization: LabSession \
        00000000000003f800000000000003f900000000000003fa00000000000003fb\r\n\r\n",
        reply: b"\
        HTTP/1.1 200 OK\r\nDate: Thu, 01 Jan 1970 00:01:40 GMT\r\nContent-Type: \
        application/json\r\nContent-Length: 2474\r\nConnection: close\r\n\r\n\
        {\"trail\":[{\"action\":\"found\",\"moment\":\"1970-01-01T00:00:00Z\",\"number\":1,\"person\
        \":\"\",\"subject\":\"aqua\"},{\"action\":\"open\",\"moment\":\"1970-01-01T00:00:10Z\",\"nu\
        mber\":2,\"person\":\"ann\",\"subject\":\"1\"},{\"action\":\"open\",\"moment\":\"1970-01-01\
        T00:00:10Z\",\"number\":3,\"person\":\"bob\",\"subject\":\"2\"},{\"action\":\"roles\",\"mom\
        ent\":\"1970-01-01T00:00:20Z\",\"number\":4,\"person\":\"bob\",\"subject\":\"ann analyst \
        manager administrator\"},{\"action\":\"roles\",\"moment\":\"1970-01-01T00:00:20Z\",\"number\
        \":5,\"person\":\"ann\",\"subject\":\"bob reviewer \
        administrator\"},{\"action\":\"enrol\",\"moment\":\"1970-01-01T00:00:30Z\",\"number\":6,\"p\
        erson\":\"ann\",\"subject\":\"dan analyst\"},{\"action\":\"enrol\",\"moment\":\"1970-01-01T\
        00:00:30Z\",\"number\":7,\"person\":\"ann\",\"subject\":\"eve \
        analyst\"},{\"action\":\"issue\",\"moment\":\"1970-01-01T00:00:30Z\",\"number\":8,\"person\
        \":\"ann\",\"subject\":\"eve\"},{\"action\":\"form\",\"moment\":\"1970-01-01T00:00:40Z\",\"\
        number\":9,\"person\":\"ann\",\"subject\":\"water/1\"},{\"action\":\"record\",\"moment\":\"\
        1970-01-01T00:00:50Z\",\"number\":10,\"person\":\"ann\",\"subject\":\"1\"},{\"action\":\"en\
        try\",\"moment\":\"1970-01-01T00:00:50Z\",\"number\":11,\"person\":\"ann\",\"subject\":\"1/\
        1/lead\"},{\"action\":\"record\",\"moment\":\"1970-01-01T00:00:50Z\",\"number\":12,\"person\
        \":\"ann\",\"subject\":\"2\"},{\"action\":\"entry\",\"moment\":\"1970-01-01T00:00:50Z\",\"n\
        umber\":13,\"person\":\"ann\",\"subject\":\"2/1/lead\"},{\"action\":\"record\",\"moment\":\
        \"1970-01-01T00:00:50Z\",\"number\":14,\"person\":\"ann\",\"subject\":\"3\"},{\"action\":\"\
        entry\",\"moment\":\"1970-01-01T00:00:50Z\",\"number\":15,\"person\":\"ann\",\"subject\":\"\
        3/1/lead\"},{\"action\":\"sign\",\"moment\":\"1970-01-01T00:01:00Z\",\"number\":16,\"person\
        \":\"ann\",\"subject\":\"2/1/authorship\"},{\"action\":\"sign\",\"moment\":\"1970-01-01T00:\
        01:00Z\",\"number\":17,\"person\":\"ann\",\"subject\":\"3/1/authorship\"},{\"action\":\"sig\
        n\",\"moment\":\"1970-01-01T00:01:10Z\",\"number\":18,\"person\":\"bob\",\"subject\":\"3/1/\
        review\"},{\"action\":\"entry\",\"moment\":\"1970-01-01T00:01:40Z\",\"number\":19,\"person\
        \":\"ann\",\"subject\":\"1/1/note\"},{\"action\":\"sign\",\"moment\":\"1970-01-01T00:01:40Z\
        \",\"number\":20,\"person\":\"ann\",\"subject\":\"1/1/authorship\"},{\"action\":\"sign\",\"\
        moment\":\"1970-01-01T00:01:40Z\",\"number\":21,\"person\":\"bob\",\"subject\":\"2/1/review\
        \"},{\"action\":\"amend\",\"moment\":\"1970-01-01T00:01:40Z\",\"number\":22,\"person\":\"an\
        n\",\"subject\":\"3/2\"},{\"action\":\"issue\",\"moment\":\"1970-01-01T00:01:40Z\",\"number\
        \":23,\"person\":\"ann\",\"subject\":\"dan\"},{\"action\":\"confirm\",\"moment\":\"1970-01-\
        01T00:01:40Z\",\"number\":24,\"person\":\"bob\",\"subject\":\"eve\"},{\"action\":\"open\",\
        \"moment\":\"1970-01-01T00:01:40Z\",\"number\":25,\"person\":\"bob\",\"subject\":\"3\"}]}",
    },
];

/// The digest of what the rows say of aqua before it.
pub(crate) static AQUA_BEFORE_DAY: &[u8; 64] = b"\
    de16cc063777bca4db5749d92ed8ce9a5daae04cada66a76762b1464411b7a4b";

/// After it.
pub(crate) static AQUA_AFTER_DAY: &[u8; 64] = b"\
    33a1fa8c7156c56e34ead689a8e96811e304b7b057be657c5bf94573d05f3880";

/// Of brick, before it and after it.
pub(crate) static BRICK: &[u8; 64] = b"\
    e4509b098d7b37352c8b63a3fd0f4c209168910827b0e640f039cde0abb6e72e";
