//! The status code of each answer.
ghost use Rattle.std.specs.Prelude.{◌≡◌};
ghost use Rattle.lab_wire.specs.Statuses.{form_status, people_status, refusal_status, body_status, head_status, route_status, request_status, reply_status, answer_status};

use crate::RouteRefusal;
use crate::refusals::RequestRefusal;
use crate::replies::Answer;
use http::StatusCode;
use lab_forms::FormRefusal;
use lab_people_access::PeopleRefusal;
use lab_records_machine::Reply;
use lab_records_rules::Refusal;
use lab_wire_heads::HeadRefusal;
use lab_wire_members::BodyRefusal;

// The statuses of refusals about forms and values.
fn form_status(refusal: FormRefusal) -> StatusCode
    ensures { result ≡ form_status refusal }
{
    match refusal {
        FormRefusal::NoFields
        | FormRefusal::KeyTwice
        | FormRefusal::TooManyFields
        | FormRefusal::BadField
        | FormRefusal::NoSuchField
        | FormRefusal::BadValue
        | FormRefusal::WrongUnit
        | FormRefusal::OutOfRange => StatusCode::BAD_REQUEST,
    }
}

// The statuses of refusals about persons and sessions.
fn people_status(refusal: PeopleRefusal) -> StatusCode
    ensures { result ≡ people_status refusal }
{
    match refusal {
        PeopleRefusal::Credentials => StatusCode::UNAUTHORIZED,
        PeopleRefusal::RandomRepeated => StatusCode::SERVICE_UNAVAILABLE,
        PeopleRefusal::NoSession => StatusCode::UNAUTHORIZED,
        PeopleRefusal::PasswordDue => StatusCode::FORBIDDEN,
        PeopleRefusal::RoleWanted(_) => StatusCode::FORBIDDEN,
        PeopleRefusal::BadPassword => StatusCode::BAD_REQUEST,
        PeopleRefusal::SamePassword => StatusCode::CONFLICT,
        PeopleRefusal::CodeTaken => StatusCode::CONFLICT,
        PeopleRefusal::LabFull => StatusCode::CONFLICT,
        PeopleRefusal::OwnIssue => StatusCode::FORBIDDEN,
        PeopleRefusal::IssueOpen => StatusCode::CONFLICT,
        PeopleRefusal::SamePerson => StatusCode::FORBIDDEN,
        PeopleRefusal::NoIssue => StatusCode::CONFLICT,
        PeopleRefusal::NoSuchPerson => StatusCode::NOT_FOUND,
    }
}

// The statuses of the machine's refusals.
fn refusal_status(refusal: &Refusal) -> StatusCode
    ensures { result ≡ refusal_status refusal.now }
{
    match refusal {
        Refusal::NoSuchLab => StatusCode::NOT_FOUND,
        Refusal::ClockBehind => StatusCode::SERVICE_UNAVAILABLE,
        Refusal::People(people) => people_status(*people),
        Refusal::Form(form) => form_status(*form),
        Refusal::NoSuchForm => StatusCode::NOT_FOUND,
        Refusal::RecordExists(_) => StatusCode::CONFLICT,
        Refusal::NoSuchRecord => StatusCode::NOT_FOUND,
        Refusal::NoSuchVersion => StatusCode::NOT_FOUND,
        Refusal::NotOpen => StatusCode::CONFLICT,
        Refusal::ReasonWanted => StatusCode::BAD_REQUEST,
        Refusal::NothingAltered => StatusCode::CONFLICT,
        Refusal::NotAltered(_) => StatusCode::CONFLICT,
        Refusal::AmendmentOpen => StatusCode::CONFLICT,
        Refusal::EntriesMissing => StatusCode::CONFLICT,
        Refusal::StaleDigest(_) => StatusCode::CONFLICT,
        Refusal::AlreadySigned => StatusCode::CONFLICT,
        Refusal::OwnWork => StatusCode::FORBIDDEN,
        Refusal::NotAuthor => StatusCode::FORBIDDEN,
        Refusal::NotSigned => StatusCode::CONFLICT,
        Refusal::CodeWanted => StatusCode::FORBIDDEN,
        Refusal::ApprovalNotWanted => StatusCode::CONFLICT,
    }
}

// The statuses of refusals about bodies and queries.
fn body_status(refusal: BodyRefusal) -> StatusCode
    ensures { result ≡ body_status refusal }
{
    match refusal {
        BodyRefusal::BadBody | BodyRefusal::BadName => StatusCode::BAD_REQUEST,
        BodyRefusal::Form(form) => form_status(form),
    }
}

// The statuses of refusals about heads, and about how a body is sent.
fn head_status(refusal: HeadRefusal) -> StatusCode
    ensures { result ≡ head_status refusal }
{
    match refusal {
        HeadRefusal::BadHead => StatusCode::BAD_REQUEST,
        HeadRefusal::HeadTooLong => StatusCode::REQUEST_HEADER_FIELDS_TOO_LARGE,
        HeadRefusal::TransferCoding => StatusCode::NOT_IMPLEMENTED,
        HeadRefusal::LengthWanted => StatusCode::LENGTH_REQUIRED,
        HeadRefusal::BodyTooLong => StatusCode::PAYLOAD_TOO_LARGE,
        HeadRefusal::ShortBody => StatusCode::BAD_REQUEST,
    }
}

// The statuses of refusals about routes.
fn route_status(refusal: RouteRefusal) -> StatusCode
    ensures { result ≡ route_status refusal }
{
    match refusal {
        RouteRefusal::NoRoute => StatusCode::NOT_FOUND,
        RouteRefusal::Method(_) => StatusCode::METHOD_NOT_ALLOWED,
        RouteRefusal::Body(body) => body_status(body),
    }
}

// The statuses of all that the wire refuses.
fn request_status(refusal: RequestRefusal) -> StatusCode
    ensures { result ≡ request_status refusal }
{
    match refusal {
        RequestRefusal::Head(head) => head_status(head),
        RequestRefusal::Route(route) => route_status(route),
    }
}

// The statuses of replies: each reply is a success unless it is a refusal.
fn reply_status(reply: &Reply) -> StatusCode
    ensures { result ≡ reply_status reply.now }
{
    match reply {
        Reply::Refused(refusal) => refusal_status(refusal),
        _ => StatusCode::OK,
    }
}

/// Returns the status code of an answer.
pub fn answer_status(answer: &Answer) -> StatusCode
    ensures { result ≡ answer_status answer.now }
{
    match answer {
        Answer::Replied(reply) => reply_status(reply),
        Answer::Refused(refusal) => request_status(*refusal),
        Answer::Storage => StatusCode::SERVICE_UNAVAILABLE,
    }
}
